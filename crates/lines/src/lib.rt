// A sheet's lines in words, the plan of a sheet, and what its lines ask of an instant: of its tags, of a filling's ticks, of leads, and what they begin.
#![tactic(auto)]

pub mod delays;
pub mod leads;
pub mod line;
pub mod line_words;
pub mod plan;
pub mod relevant;
pub mod rules;
mod sorted;
pub mod tags;
