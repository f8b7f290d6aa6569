// A monitor in a lent array of words: six rows are its head; then its remainders, a row each, both those held and those found.
// A row is told by its number, here and in the crates above, and each function asks that it is one of the rows: it is reached by sums (`from + i`), and with a type of its own each sum would be shown to be a row at the same place, and each promise would speak of the number in it.
ghost use Rattle.std.specs.Prelude.{◌≡◌, ◌+◌, ◌-◌, ◌*◌, ◌<◌, ◌≤◌, length, set};
ghost use Rattle.tesl.specs.Lists.{any};
ghost use Rattle.remainders.specs.View.{same_stored};
ghost use Rattle.remainders.specs.Rows.{height, width, all_words, part_words, part_number, word, row_count, row_obligation, row_set, ClearedWords, PutObligation, ObligationsAt};

use crate::obligation::{BLANK, Obligation};
use crate::word::{byte_in, count_in, next_byte_in, packed_word, upper_in};

// All words, and those of a row.
pub const SIZE: usize = 4608;

pub const WIDTH: usize = 64;

// The rows of the head: the first side begins after them.
pub const HEAD: usize = 6;

// The rows of a side: 32, and one to build the next in.
pub const SIDE: usize = 33;

// The first rows of the two sides, 6 and 39, together.
pub const SIDES: usize = 45;

// The words of the part that a set takes.
pub const PART_WORDS: usize = 9;

// In a part, behind its count: where its places begin, a word each.
pub const FIRST_PLACE: usize = 1;

// Behind the parts: where the leads begin, and the stopped clocks.
pub const LEADS: usize = 18;

pub const STOPPED: usize = 34;

// The parts of a row, one to each of its sets, one behind the other.
#[derive(Clone, Copy, Debug, PartialEq, Eq)]
pub enum Part {
    Obligations,
    Countdowns,
}

impl Part {
    // Where its words begin in a row.
    pub fn start(self) -> usize
        ensures { result ≡ part_words * part_number self }
    {
        match self {
            Part::Obligations => 0,
            Part::Countdowns => PART_WORDS,
        }
    }

    // The other part.
    pub fn other(self) -> Part
        ensures { part_number result ≡ 1 - part_number self }
    {
        match self {
            Part::Obligations => Part::Countdowns,
            Part::Countdowns => Part::Obligations,
        }
    }
}

// Word p of row i.
pub fn word_at(rows: &[u32; SIZE], i: usize, p: usize) -> u32
    requires { (i < height) × (p < width) }
    ensures { result ≡ word rows.now i p }
{
    rows[WIDTH * i + p]
}

pub fn put_word(rows: &mut [u32; SIZE], i: usize, p: usize, w: u32)
    requires { (i < height) × (p < width) }
    ensures { rows.new ≡ set rows.old (width * i + p) w }
{
    rows[WIDTH * i + p] = w;
}

// Clears the words from place k to the one before `end`.
pub fn clear_words(rows: &mut [u32; SIZE], k: usize, end: usize)
    requires { end ≤ all_words }
    ensures { ClearedWords k end rows.old rows.new }
{
    for q in k..end {
        rows[q] = 0;
    }
}

// How many there are in a part of row i.
pub fn row_count(rows: &[u32; SIZE], i: usize, part: Part) -> usize
    requires { i < height }
    ensures { result ≡ row_count rows.now i (part_number part) }
{
    count_in(word_at(rows, i, part.start()))
}

// Place j of a part of row i.
pub fn obligation_at(rows: &[u32; SIZE], i: usize, part: Part, j: usize) -> Obligation
    requires { (i < height) × (j < 8) }
    ensures { result ≡ row_obligation rows.now i (part_number part) j }
{
    let w = word_at(rows, i, part.start() + FIRST_PLACE + j);
    Obligation {
        clock: byte_in(w),
        on: next_byte_in(w),
        number: upper_in(w),
    }
}

// Stores an obligation in place j of a part of row i.
pub fn put_obligation(rows: &mut [u32; SIZE], i: usize, part: Part, j: usize, o: Obligation)
    requires { (length rows.old ≡ all_words) × ((i < height) × (j < 8)) }
    ensures { PutObligation i (part_number part) j o rows.old rows.new }
{
    put_word(
        rows,
        i,
        part.start() + FIRST_PLACE + j,
        packed_word(o.clock, o.on, o.number),
    );
}

// The first n of a part of row i, at the front of eight places; blank ones past them.
pub fn obligations_at(rows: &[u32; SIZE], i: usize, part: Part, n: usize) -> [Obligation; 8]
    requires { (i < height) × (n ≤ 8) }
    ensures { ObligationsAt i (part_number part) n result rows.now }
{
    let mut all = [BLANK; 8];
    for j in 0..n {
        all[j] = obligation_at(rows, i, part, j);
    }
    all
}

// A part of row i has o.
pub fn row_owes(rows: &[u32; SIZE], i: usize, part: Part, o: Obligation) -> bool
    requires { (i < height) × (row_count rows.now i (part_number part) ≤ 8) }
    ensures { result ≡ any (same_stored o) (row_set rows.now i (part_number part)) }
{
    for j in 0..row_count(rows, i, part) {
        if o == obligation_at(rows, i, part, j) {
            return true;
        }
    }
    false
}
