//! Files: their bytes, how they are read back, and the texts of their faults.

mod bytes;
mod decoding;
mod each_call;
mod each_growth;
mod lengths;
