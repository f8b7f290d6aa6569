// A whole monitor in a lent array of words: the words of its head, in rows 0 to 2, read and stored. Its remainders stand behind the head, a row each. The place of a line is a number below 16 that loops count.
ghost use Rattle.std.specs.Prelude.{◌≡◌, ◌&&◌, ◌≤◌, ◌<◌, length};
ghost use Rattle.records.specs.Lists.{listed};
ghost use Rattle.records.specs.Line.{blank_line};
ghost use Rattle.records.specs.Word.{tag_of, raw_of};
ghost use Rattle.remainders.specs.Word.{number_in};
ghost use Rattle.lent.specs.State.{state_words, clocks_by, state_slot, state_sheet, count_by, state_tag, state_progress, has_format, is_kind, kinds_below, has_kinds, is_side, is_case, is_state, PutFormat, FewIn, PutCount, PutLastTags, PuttingProgress, PutProgress, PutWords, no_words, SlotWords, PutLines, PutSheet};

use judge::progress::Progress;
use lines::line_words::{LineWords, line_of_words, words_of_line};
use records::line::Line;
use records::sheet::{Sheet, line_at};
use records::word::{raw_of, tag_of};
use remainders::rows::{HEAD, SIDES, SIZE, put_word, word_at};
use remainders::word::{count_in, number_in};
use std::array;

// The format and its version.
pub(crate) const FORMAT: u32 = 1279655939;

// The answer's case: exhausted, or any other.
const EXHAUSTED: u32 = 1;

const LIVE: u32 = 2;

// The rows of the lines' kinds and clocks and of their numbers, and the words that a part of sixteen lines takes.
const LINES_ROW: usize = 1;

const NUMBERS_ROW: usize = 2;

const LINE_PLACES: usize = 16;

// Kinds of lines, from sporadic to counted.
const FIRST_KIND: u32 = 16;

const LAST_KIND: u32 = 24;

// The words of row 0, the top: the format, the clocks and the lines of the sheet, the instants, the first row of the side in use, the answer's case, live, and the last tags of eight clocks.
const TOP: usize = 0;

const FORMAT_AT: usize = 0;

const CLOCKS_AT: usize = 1;

const LINES_AT: usize = 2;

const INSTANTS_AT: usize = 3;

const SIDE_AT: usize = 4;

const CASE_AT: usize = 5;

const LIVE_AT: usize = 6;

const TAGS_AT: usize = 8;

// ---- words

// A tag, in 16 bits of a word.
fn tag_in(w: u32) -> i16
    ensures { result ≡ tag_of (number_in w) }
{
    tag_of(number_in(w))
}

// The word of a tag.
fn tag_word(t: i16) -> u32
    ensures { (tag_of (number_in result) ≡ t) × (result ≡ raw_of t) }
{
    u32::from(raw_of(t))
}

// How many are held, by the case of the answer and live.
fn count_by(case: u32, live: u32) -> Option<usize>
    ensures { result ≡ count_by case live }
{
    if case == EXHAUSTED {
        None
    } else {
        Some(count_in(live))
    }
}

// The first row of a side.
fn is_side(from: usize) -> bool
    ensures { result ≡ is_side from }
{
    from == HEAD || from == SIDES - HEAD
}

// Exhausted, or any other answer.
fn is_case(w: u32) -> bool
    ensures { result ≡ is_case w }
{
    w == EXHAUSTED || w == LIVE
}

// The kind of a line.
fn is_kind(w: u32) -> bool
    ensures { result ≡ is_kind w }
{
    (FIRST_KIND..=LAST_KIND).contains(&w)
}

// The clocks of a sheet; 255 where no byte holds them.
fn clocks_by(w: u32) -> u8
    ensures { result ≡ clocks_by w }
{
    u8::try_from(w).unwrap_or(u8::MAX)
}

// ---- read

// Whether each of the first n lines has a kind.
fn kinds_below(state: &[u32; SIZE], n: usize) -> bool
    ensures { result ≡ kinds_below n state.now }
{
    (0..LINE_PLACES).all(|k| n <= k || is_kind(word_at(state, LINES_ROW, k)))
}

// Whether the format and its version are known.
fn has_format(state: &[u32; SIZE]) -> bool
    ensures { result ≡ has_format state.now }
{
    word_at(state, TOP, FORMAT_AT) == FORMAT
}

// Whether the format is known and each line in use has a kind.
fn has_lines(state: &[u32; SIZE]) -> bool
    ensures { result ≡ (has_format state.now && has_kinds state.now) }
{
    has_format(state) && kinds_below(state, count_in(word_at(state, TOP, LINES_AT)))
}

// Whether an array of words is a state.
pub(crate) fn is_state(state: &[u32; SIZE]) -> bool
    ensures { result ≡ is_state state.now }
{
    has_lines(state)
        && is_side(count_in(word_at(state, TOP, SIDE_AT)))
        && is_case(word_at(state, TOP, CASE_AT))
}

// The six words of line k.
fn line_words_at(state: &[u32; SIZE], k: usize) -> LineWords
    requires { k < 16 }
    ensures { result ≡ state_words state.now k }
{
    LineWords {
        kind: word_at(state, LINES_ROW, k),
        a: word_at(state, LINES_ROW, LINE_PLACES + k),
        b: word_at(state, LINES_ROW, 2 * LINE_PLACES + k),
        d: word_at(state, LINES_ROW, 3 * LINE_PLACES + k),
        x: word_at(state, NUMBERS_ROW, k),
        y: word_at(state, NUMBERS_ROW, LINE_PLACES + k),
    }
}

// The line of an unused place.
fn blank_line() -> Line
    ensures { result ≡ blank_line }
{
    Line::Sporadic { a: 0, b: 0, t: 0 }
}

// Line k of n lines; the blank line past them.
fn slot_line(state: &[u32; SIZE], n: usize, k: usize) -> Line
    requires { k < 16 }
    ensures { result ≡ state_slot n state.now k }
{
    if k < n {
        line_of_words(line_words_at(state, k))
    } else {
        blank_line()
    }
}

// The n lines of a state, and blank ones past them.
fn lines_in(state: &[u32; SIZE], n: usize) -> [Line; 16]
    ensures { result ≡ listed (state_slot n state.now) 16 }
{
    array::from_fn(|k| slot_line(state, n, k))
}

// The sheet of a state.
pub(crate) fn sheet_in(state: &[u32; SIZE]) -> Sheet
    ensures { result ≡ state_sheet state.now }
{
    let count = count_in(word_at(state, TOP, LINES_AT));
    Sheet {
        clocks: clocks_by(word_at(state, TOP, CLOCKS_AT)),
        count,
        lines: lines_in(state, count),
    }
}

// The last tags of eight clocks.
fn tags_in(state: &[u32; SIZE]) -> [i16; 8]
    ensures { result ≡ listed (state_tag state.now) 8 }
{
    array::from_fn(|k| tag_in(word_at(state, TOP, TAGS_AT + k)))
}

// The monitor of a state, beside its sheet and its rows.
pub(crate) fn progress_in(state: &[u32; SIZE]) -> Progress
    ensures { result ≡ state_progress state.now }
{
    Progress {
        instants: count_in(word_at(state, TOP, INSTANTS_AT)),
        tags: tags_in(state),
        count: count_by(word_at(state, TOP, CASE_AT), word_at(state, TOP, LIVE_AT)),
        from: count_in(word_at(state, TOP, SIDE_AT)),
    }
}

// ---- stored

// Stores the format and its version.
pub(crate) fn put_format(state: &mut [u32; SIZE])
    ensures { PutFormat state.old state.new }
{
    put_word(state, TOP, FORMAT_AT, FORMAT);
}

// Stores how many are held: the case of the answer, and live.
fn put_count(state: &mut [u32; SIZE], count: Option<usize>)
    requires { FewIn count }
    ensures { PutCount count state.old state.new }
{
    match count {
        None => {
            put_word(state, TOP, CASE_AT, EXHAUSTED);
            put_word(state, TOP, LIVE_AT, 0);
        }
        Some(n) => {
            put_word(state, TOP, CASE_AT, LIVE);
            // (32 at most, so nothing is lost)
            put_word(state, TOP, LIVE_AT, n as u32);
        }
    }
}

// Stores the last tags.
fn put_tags(state: &mut [u32; SIZE], tags: [i16; 8])
    ensures { PutLastTags tags state.old state.new }
{
    for (k, tag) in tags.iter().enumerate() {
        put_word(state, TOP, TAGS_AT + k, tag_word(*tag));
    }
}

// Stores a monitor beside its sheet and its rows.
pub(crate) fn put_progress(state: &mut [u32; SIZE], progress: Progress)
    requires { PuttingProgress state.old progress }
    ensures { PutProgress progress state.old state.new }
{
    // (4,000 and 39 at most, so nothing is lost)
    put_word(state, TOP, INSTANTS_AT, progress.instants as u32);
    put_word(state, TOP, SIDE_AT, progress.from as u32);
    put_count(state, progress.count);
    put_tags(state, progress.tags);
}

// Stores six words in the places of line k.
fn put_line_words(state: &mut [u32; SIZE], k: usize, w: LineWords)
    requires { k < 16 }
    ensures { PutWords k w state.old state.new }
{
    put_word(state, LINES_ROW, k, w.kind);
    put_word(state, LINES_ROW, LINE_PLACES + k, w.a);
    put_word(state, LINES_ROW, 2 * LINE_PLACES + k, w.b);
    put_word(state, LINES_ROW, 3 * LINE_PLACES + k, w.d);
    put_word(state, NUMBERS_ROW, k, w.x);
    put_word(state, NUMBERS_ROW, LINE_PLACES + k, w.y);
}

// The words of a place without a line.
fn no_line_words() -> LineWords
    ensures { result ≡ no_words }
{
    LineWords {
        kind: 0,
        a: 0,
        b: 0,
        d: 0,
        x: 0,
        y: 0,
    }
}

// The words of place k of a sheet: zeros past its lines.
fn slot_words(s: Sheet, k: usize) -> LineWords
    ensures { SlotWords s k result }
{
    if k < s.count {
        words_of_line(line_at(s, k))
    } else {
        no_line_words()
    }
}

// Stores the lines of a sheet, and zeros past them.
fn put_lines(state: &mut [u32; SIZE], sheet: Sheet)
    ensures { PutLines sheet state.old state.new }
{
    for k in 0..LINE_PLACES {
        put_line_words(state, k, slot_words(sheet, k));
    }
}

// Stores a sheet.
pub(crate) fn put_sheet(state: &mut [u32; SIZE], sheet: Sheet)
    requires { sheet.count ≤ 16 }
    ensures { PutSheet sheet state.old state.new }
{
    put_lines(state, sheet);
    put_word(state, TOP, CLOCKS_AT, u32::from(sheet.clocks));
    // (16 at most, so nothing is lost)
    put_word(state, TOP, LINES_AT, sheet.count as u32);
}
