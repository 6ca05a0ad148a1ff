//! What a database means: lists, and worked examples.

mod list;
mod worked_examples;
