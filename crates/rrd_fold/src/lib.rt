//! Partial steps and rows: the consolidation of the seconds of an unfinished step, and of the steps of an unfinished
//! row.
//!
//! RRDtool names them `pdp_prep` and `cdp_prep`.
#![tactic(auto)]

mod function;
pub mod laws;
mod row;
mod step;
mod summary;

pub use function::Function;
pub use row::RowPrep;
pub use step::StepPrep;
