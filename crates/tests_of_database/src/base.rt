//! Databases, by the calls of rrd_base.

mod database;
mod each_growth;
mod journal;
mod rebuild;
