// The programs watch, columns and sort, whole: the crates of these names call them, and `runs` calls each on small files.
#![tactic(auto)]

pub mod columns;
mod file;
pub mod sort;
pub mod watch;
