// The places of what is counted, in the order of the reports. Numbers and no enum: `cases` counts at an index, and the rows of a report begin at one.

// The kinds of lines.
pub const SPORADIC: usize = 0;

pub const RELATION: usize = 1;

pub const IMPLIES: usize = 2;

pub const EXCLUDES: usize = 3;

pub const DELAYED: usize = 4;

pub const WEAKLY: usize = 5;

pub const STRICTLY: usize = 6;

pub const KILLS: usize = 7;

pub const COUNTED: usize = 8;

// The four answers, from the first on, and refusals.
pub const ANSWERS: usize = 9;

pub const REFUSED: usize = 13;

pub const BY_NUMBER: usize = 14;

pub const BY_NINTH: usize = 15;

pub const BY_ORDER: usize = 16;

// Instants.
pub const NUMBERED: usize = 17;

pub const ON_UNSEEN: usize = 18;

pub const DUE_AT_END: usize = 19;

pub const DUE_PAST_END: usize = 20;

// Limits.
pub const LIVE_31: usize = 21;

pub const LIVE_32: usize = 22;

pub const FULL: usize = 23;

pub const COUNTING_FULL: usize = 24;

pub const BOTH_FULL: usize = 25;

pub const BY_OWED: usize = 26;

pub const NINTH_OBLIGATION: usize = 27;

pub const NINTH_COUNTDOWN: usize = 28;

pub const BY_LIVE: usize = 29;

// The same sheet in another order.
pub const REVERSED: usize = 30;

pub const REPEATED: usize = 31;

pub const ANY_BY_KIND: usize = 32;

pub const ANY_BY_NINTH: usize = 33;

pub const UNLIKE_SORTED: usize = 34;

// Differences, and cases, the wide ones by their clocks.
pub const DIFFERENT: usize = 35;

pub const CASES: usize = 36;

pub const EIGHT: usize = 37;

pub const HIGH_UNSEEN: usize = 38;

pub const ALL_UNSEEN: usize = 39;

// Numbers of one list.
pub const NEXT_NUMBER: usize = 40;

pub const REPEATED_NUMBER: usize = 41;

pub const EARLY_NUMBER: usize = 42;

pub const NO_NUMBER: usize = 43;

pub const WHOLE_LIST: usize = 44;

pub const PART_OF_LIST: usize = 45;
