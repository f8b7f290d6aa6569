// The places of what is counted, in the order of the report. Numbers and no enum: `cases` counts at an index, and the rows of a report begin at one.

// Cases.
pub const NARROW: usize = 0;

pub const WIDE: usize = 1;

pub const COUNTED: usize = 2;

// Calls.
pub const JUDGE_LOG: usize = 3;

pub const LIFT_JUDGE: usize = 4;

pub const LIFT_WATCH: usize = 5;

pub const SHORT: usize = 6;

pub const LIFT_PANEL: usize = 7;

pub const OWING: usize = 8;

pub const COUNTED_OWING: usize = 9;

pub const SHEET_NUMBER: usize = 10;

pub const INSTANT_NUMBER: usize = 11;

// The four answers: of all sheets, and of those whose lines are all counted.
pub const ANSWERS: usize = 12;

pub const COUNTED_ANSWERS: usize = 16;

// The number n of a refusal is at the place n further; at the first what has none.
pub const NUMBERS: usize = 20;

pub const DIFFERENT: usize = 40;
