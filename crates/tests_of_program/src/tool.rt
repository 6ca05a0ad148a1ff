//! Commands and batches: the words that they are read from, what they print, and their faults.

mod batches;
mod each_growth;
mod failing_streams;
mod faults;
mod words;
