//! Tests of texts over public calls: files, tokens, trees, printed texts, words and certificates. There is nothing else here.
#![tactic(auto)]

#[cfg(test)]
mod cells;
#[cfg(test)]
mod certificates;
#[cfg(test)]
mod files;
#[cfg(test)]
mod gadgets;
#[cfg(test)]
mod names;
#[cfg(test)]
mod printed;
#[cfg(test)]
mod tokens;
#[cfg(test)]
mod tops;
#[cfg(test)]
mod trees;
#[cfg(test)]
mod words;
