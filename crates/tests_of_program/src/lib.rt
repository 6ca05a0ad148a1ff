//! The tests of the program below `main`: its commands and batches, its tasks over a file, and its explanations.
#![tactic(auto)]

#[cfg(test)]
mod explain;
#[cfg(test)]
mod shared;
#[cfg(test)]
mod store;
#[cfg(test)]
mod tool;
