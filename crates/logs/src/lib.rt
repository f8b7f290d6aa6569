// A whole log, judged record by record, and answers as numbers and bytes.
#![tactic(auto)]

pub mod count;
pub mod entry;
pub mod log;
