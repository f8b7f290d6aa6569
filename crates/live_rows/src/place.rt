// Where the words of a state stand. The head:
pub const FORMAT: usize = 0;

pub const CLOCKS: usize = 1;

pub const LINES: usize = 2;

pub const INSTANTS: usize = 3;

pub const SIDE: usize = 4;

pub const CASE: usize = 5;

pub const LIVE: usize = 6;

// A word that says nothing.
pub const FREE: usize = 7;

// The kind of the first line, and of the third, which the sheets altered here do not have; the number of the first line.
pub const KIND: usize = 64;

pub const UNUSED_KIND: usize = 66;

pub const LINE_NUMBER: usize = 128;

// The words of a row, a remainder to a row; the first row of the side in use after an even number of instants.
pub const ROW: usize = 64;

pub const HELD: usize = 384;

// In a row: how many obligations, the first and the eighth of them. Such a word is the clock, 256 times the on-clock and 65,536 times the number, the due counted from -32,768.
pub const OWED: usize = 0;

pub const OBLIGATION: usize = 1;

pub const EIGHTH_OBLIGATION: usize = 8;

// The same of the countdowns, whose numbers are the ticks still wanted.
pub const COUNTING: usize = 9;

pub const COUNTDOWN: usize = 10;

pub const EIGHTH_COUNTDOWN: usize = 17;

// The leads of the first two lines, a delay line and a precedes line.
pub const DELAY_LEAD: usize = 18;

pub const LEAD: usize = 19;

// The row behind the two held, and the first row of the other side.
pub const THIRD: usize = 512;

pub const OTHER: usize = 2496;
