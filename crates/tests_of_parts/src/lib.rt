//! The tests of rows, of parts of rows, and of how a file is changed.
#![tactic(auto)]

#[cfg(test)]
mod change;
#[cfg(test)]
mod fold;
#[cfg(test)]
mod ring;
