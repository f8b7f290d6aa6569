// The sheet and instant records: what a byte string holds, by document 01, and how a value is written.
#![tactic(auto)]

pub mod form;
pub mod instant;
pub mod line;
pub mod next;
pub mod number;
pub mod order;
pub mod record;
pub mod refusal;
pub mod sheet;
pub mod sort;
pub mod word;
