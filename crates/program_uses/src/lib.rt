//! Tests of whole commands over files and a sink in memory: each answer with its text, and each fault. There is nothing else
//! here.
#![tactic(auto)]

#[cfg(test)]
mod answers;
#[cfg(test)]
mod certificates;
#[cfg(test)]
mod commands;
#[cfg(test)]
mod texts;
#[cfg(test)]
mod verdicts;
