//! Tests of the engine and of the search over their public calls: tables, chains, families, searches, words and deques.
//! There is nothing else here.
#![tactic(auto)]

#[cfg(test)]
mod chains;
#[cfg(test)]
mod counted_looks;
#[cfg(test)]
mod deques;
#[cfg(test)]
mod families;
#[cfg(test)]
mod frontiers;
#[cfg(test)]
mod hulls;
#[cfg(test)]
mod marks;
#[cfg(test)]
mod ranks;
#[cfg(test)]
mod root_lists;
#[cfg(test)]
mod samples;
#[cfg(test)]
mod searches;
#[cfg(test)]
mod sets;
#[cfg(test)]
mod splits;
#[cfg(test)]
mod tables;
#[cfg(test)]
mod words;
