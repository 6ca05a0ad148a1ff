//! Changes by a log, of a file in memory whose calls fail, are cut short or lose the power, and the file that they leave.
mod counted;
mod decoder;
mod disk;
mod repairs;
mod states;
mod stops;
