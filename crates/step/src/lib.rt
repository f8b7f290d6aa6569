// What one instant makes of the rows held: a filling gathered, a row advanced by it, the rows by a filling and by all, the fillings listed.
#![tactic(auto)]

pub mod advance;
pub mod apply;
pub mod apply_all;
pub mod fill;
pub mod filling;
pub mod left;
pub mod list;
