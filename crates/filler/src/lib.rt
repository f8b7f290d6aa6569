// A judge for tests: it tries every filling of the whole run and carries nothing from instant to instant.
#![tactic(auto)]

mod few;
mod fits;
mod found;
mod history;
mod obligation;
mod remainder;
pub mod run;
mod sentence;
pub mod verdict;
pub mod whole_run;
