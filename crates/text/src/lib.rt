// What the programs print, as bytes of ASCII: line by line, and whole.
#![tactic(auto)]

pub mod build;
pub mod columns;
pub mod line;
mod put;
pub mod sort;
pub mod watch;
