// The paper's numbers, each named once; those of refusals are in refusal.rt.

// Kinds of records.
pub const CLOCKS: u16 = 1;

pub const SPORADIC: u16 = 16;

pub const RELATION: u16 = 17;

pub const IMPLIES: u16 = 18;

pub const EXCLUDES: u16 = 19;

pub const DELAYED: u16 = 20;

pub const WEAKLY: u16 = 21;

pub const STRICTLY: u16 = 22;

pub const KILLS: u16 = 23;

pub const COUNTED: u16 = 24;

// The last kind that is a line.
pub const LAST_LINE: u16 = COUNTED;

// The last one of document 01's own.
pub const LAST_BASE_LINE: u16 = KILLS;

pub const INSTANT: u16 = 32;

pub const NUMBERED: u16 = 33;

// Lengths: of a record's length and kind, of the bodies of the clocks record and of lines, of an instant's number and of a clock in it.
pub const HEAD_LENGTH: usize = 4;

pub const CLOCKS_BODY: usize = 1;

pub const SPORADIC_BODY: usize = 4;

pub const RELATION_BODY: usize = 6;

pub const PAIR_BODY: usize = 2;

pub const DELAYED_BODY: usize = 5;

pub const COUNTED_BODY: usize = 4;

// The longest body of a line.
pub const MAX_BODY: usize = RELATION_BODY;

pub const NUMBER_LENGTH: usize = 2;

pub const CELL_LENGTH: usize = 3;

// Limits: clocks and lines of a sheet, sporadic lines among them, instants of a run, distinct remainders held, obligations of each.
pub const MAX_CLOCKS: u8 = 8;

pub const MAX_LINES: usize = 16;

pub const MAX_SPORADIC: usize = 8;

pub const MAX_INSTANTS: usize = 4000;

pub const MAX_LIVE: usize = 32;

pub const MAX_OWED: usize = 8;

// The longest sheet: the clocks record and 16 of the longest lines.
pub const MAX_SHEET: usize = HEAD_LENGTH + CLOCKS_BODY + MAX_LINES * (HEAD_LENGTH + MAX_BODY);

// The longest instant: eight clocks, with a number. (A constant calls no `from`.)
pub const MAX_INSTANT: usize = HEAD_LENGTH + NUMBER_LENGTH + MAX_CLOCKS as usize * CELL_LENGTH;
