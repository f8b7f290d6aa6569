// Made cases for tests, of a fixed sequence: a sheet, its instants, damaged records between them, the sheet with its lines out of order, and what is counted and printed of them.
#![tactic(auto)]

mod counting;
pub mod course;
pub mod damage;
pub mod disorder;
mod families;
mod generic;
pub mod list;
pub mod made;
pub mod numbered;
pub mod plan;
pub mod random;
pub mod report;
pub mod tally;
pub mod tape;
mod wide;
