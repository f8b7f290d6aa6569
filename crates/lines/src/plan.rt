// The rows of a sheet's lines in a lent array of words, and what is found out about a sheet once. All lines stand in the sheet's order from row 0 on; its relations, its rules, its delay lines and its counted lines once more, from rows 16, 32, 48 and 64 on.
ghost use Rattle.std.specs.Prelude.{◌+◌, ◌≤◌};

pub use crate::sorted::plan_of;

// Words of a row; rows; words in all.
pub const LINE_WIDTH: usize = 6;

pub const PLAN_ROWS: usize = 80;

pub const NUMBERS: usize = LINE_WIDTH * PLAN_ROWS;

// The rows where relations, rules, delay lines and counted lines begin.
pub(crate) const RELATIONS: usize = 16;

pub(crate) const RULES: usize = 32;

pub(crate) const DELAYS: usize = 48;

pub(crate) const COUNTED: usize = 64;

// What is found out about a sheet once. The last five fields are what holds of every plan. (The counts are of rows of the lines, which stand elsewhere; one array is by line, the other by clock.)
#[derive(Clone, Copy)]
pub struct Plan {
    // Its clocks.
    pub clocks: usize,
    // How many relations there are.
    pub relations: usize,
    // How many rules: implies, excludes, kills.
    pub rules: usize,
    // How many delay lines.
    pub delays: usize,
    // How many counted lines.
    pub counted: usize,
    // Where the last precedes line stands, counted from 1.
    pub leaders: usize,
    // Which lines are precedes lines.
    pub precede: [bool; 16],
    // The clocks whose ticks lines ask about.
    pub named: [bool; 8],
    // At most eight clocks.
    pub ghost few_clocks: { clocks ≤ 8 },
    // At most sixteen lines that lead.
    pub ghost few_leaders: { leaders ≤ 16 },
    // A part has sixteen rows.
    pub ghost few_relations: { relations ≤ 16 },
    // So have rules.
    pub ghost few_rules: { rules ≤ 16 },
    // Delay lines and counted lines begin at most sixteen in all, which one array holds.
    pub ghost few_begin: { delays + counted ≤ 16 },
}
