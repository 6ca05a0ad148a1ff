//! The tests of the database: its numbers, its meaning, its calls, and its file.
#![tactic(auto)]

#[cfg(test)]
mod base;
#[cfg(test)]
mod examples;
#[cfg(test)]
mod file;
#[cfg(test)]
mod fixed;
#[cfg(test)]
mod shared;
#[cfg(test)]
mod spec;
