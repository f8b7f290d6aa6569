// Remainders as the code holds them: obligations and clocks, remainders in structs, and in rows of words that are read, stored and compared.
#![tactic(auto)]

pub mod clock;
pub mod compare;
pub mod held;
pub mod obligation;
pub mod remainder;
pub mod rows;
pub mod word;
