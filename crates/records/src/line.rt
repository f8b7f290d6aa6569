// The lines of a sheet: one of nine cases, each told by its kind, with its own length and fields.
ghost use Rattle.std.specs.Prelude.{◌≡◌, true, ◌&&◌, ◌+◌, ◌≤◌, length, take, leb};
ghost use Rattle.records.specs.Outcome.{decide, outcome_of};
ghost use Rattle.records.specs.Lists.{filled};
ghost use Rattle.records.specs.Record.{whole};
ghost use Rattle.records.specs.Line.{is_line, is_sporadic, length_of, clocks_of, all_below, no_count, line_checks, value_line_checks, line_of, kind_of, body_of, line_bytes};
ghost use Rattle.records.specs.Store.{puts};
ghost use Rattle.records.specs.Types.{IsLineValue};
ghost use Rattle.records.specs.Inner.{sporadic_of};

use crate::number;
use crate::record::put_head;
use crate::refusal::Refusal;
use crate::word::{raw_of, tag_of, word_at};

#[derive(Clone, Copy, Debug, PartialEq, Eq)]
pub enum Line {
    // A sporadic t on B.
    Sporadic { a: u8, b: u8, t: i16 },
    // A = p × B + q.
    Relation { a: u8, b: u8, p: i16, q: i16 },
    Implies { a: u8, b: u8 },
    Excludes { a: u8, b: u8 },
    // A delayed by `by` on B implies D.
    Delayed { a: u8, b: u8, d: u8, by: u16 },
    Weakly { a: u8, b: u8 },
    Strictly { a: u8, b: u8 },
    Kills { a: u8, b: u8 },
    // D ticks at B's n-th tick after a tick of A.
    Counted { a: u8, b: u8, d: u8, n: u8 },
}

fn is_line(kind: u16) -> bool
    ensures { result ≡ is_line kind }
{
    matches!(kind, number::SPORADIC..=number::LAST_LINE)
}

// The length of a body by its kind; 0 of a kind that is no line.
#[tactic(auto, using(std::proofs::lemmas::Bool::Decides::nat_tests), unfolding(crate::specs::Line::length_of))]
fn length_of(kind: u16) -> usize
    ensures { result ≡ length_of kind }
{
    match kind {
        number::SPORADIC => number::SPORADIC_BODY,
        number::RELATION => number::RELATION_BODY,
        number::DELAYED => number::DELAYED_BODY,
        number::COUNTED => number::COUNTED_BODY,
        number::IMPLIES..=number::EXCLUDES | number::WEAKLY..=number::KILLS => number::PAIR_BODY,
        _ => 0,
    }
}

// How many clocks stand at the front of a line's body.
#[tactic(auto, using(std::proofs::lemmas::Bool::Decides::nat_tests), unfolding(crate::specs::Line::clocks_of))]
fn front_clocks(kind: u16) -> usize
    ensures { result ≡ clocks_of kind }
{
    match kind {
        number::DELAYED | number::COUNTED => 3,
        number::SPORADIC..=number::KILLS => 2,
        _ => 0,
    }
}

// Whether each of the first n bytes is below the clock count.
fn clocks_below(body: &[u8], n: usize, clocks: u8) -> bool
    requires { n ≤ length body.now }
    ensures { result ≡ all_below clocks (take n body.now) }
{
    body[..n].iter().all(|clock| *clock < clocks)
}

// Whether a line of a kind counts to 0, from a body at least as long as the kind's.
#[tactic(auto, using(std::proofs::lemmas::Bool::Decides::nat_tests), unfolding(crate::specs::Line::length_of))]
fn is_uncounted(kind: u16, body: &[u8]) -> bool
    requires { length_of kind ≤ length body.now }
    ensures { result ≡ no_count kind body.now }
{
    kind == number::COUNTED && body[3] == 0
}

// How many sporadic lines a line of a kind is.
pub(crate) fn sporadic_of(kind: u16) -> usize
    ensures { result ≡ sporadic_of kind }
{
    usize::from(kind == number::SPORADIC)
}

// Whether a line of a kind is one sporadic line too many.
fn is_ninth(kind: u16, spent: usize) -> bool
    ensures { result ≡ (is_sporadic kind && leb 8 spent) }
{
    kind == number::SPORADIC && number::MAX_SPORADIC <= spent
}

// The line of a kind, from a body of its length.
#[tactic(auto, using(std::proofs::lemmas::Bool::Decides::nat_tests), unfolding(crate::specs::Line::length_of, crate::specs::Line::line_of))]
fn line_of(kind: u16, body: &[u8]) -> Line
    requires { (is_line kind ≡ true) × (length body.now ≡ length_of kind) }
    ensures { result ≡ line_of kind body.now }
{
    let a = body[0];
    let b = body[1];
    match kind {
        number::SPORADIC => Line::Sporadic {
            a,
            b,
            t: tag_of(word_at(body, 2)),
        },
        number::RELATION => Line::Relation {
            a,
            b,
            p: tag_of(word_at(body, 2)),
            q: tag_of(word_at(body, 4)),
        },
        number::IMPLIES => Line::Implies { a, b },
        number::EXCLUDES => Line::Excludes { a, b },
        number::DELAYED => Line::Delayed {
            a,
            b,
            d: body[2],
            by: word_at(body, 3),
        },
        number::WEAKLY => Line::Weakly { a, b },
        number::STRICTLY => Line::Strictly { a, b },
        number::COUNTED => Line::Counted {
            a,
            b,
            d: body[2],
            n: body[3],
        },
        _ => Line::Kills { a, b },
    }
}

// A line record of a sheet whose last kind of line is given,
// `lines` lines and `spent` sporadic ones among them standing before it: 8, 5, 6, 7, 18, 9, or the line.
#[tactic(auto, using(std::proofs::lemmas::Bool::Decides::nat_tests, crate::proofs::line::Table::tables))]
pub(crate) fn read_line(
    kind: u16,
    body: &[u8],
    last: u16,
    clocks: u8,
    lines: usize,
    spent: usize,
) -> Result<Line, Refusal>
    ensures { outcome_of result ≡ decide (line_checks last clocks lines spent (whole kind body.now)) (line_of kind body.now) }
{
    if number::MAX_LINES <= lines {
        return Err(Refusal::SeventeenthLine);
    }
    if !is_line(kind) || last < kind {
        return Err(Refusal::LineKind);
    }
    if body.len() != length_of(kind) {
        return Err(Refusal::LineLength);
    }
    if !clocks_below(body, front_clocks(kind), clocks) {
        return Err(Refusal::ClockNumber);
    }
    if is_uncounted(kind, body) {
        return Err(Refusal::NoCount);
    }
    if is_ninth(kind, spent) {
        return Err(Refusal::NinthSporadic);
    }
    Ok(line_of(kind, body))
}

pub(crate) fn kind_of(l: Line) -> u16
    ensures { result ≡ kind_of l }
{
    match l {
        Line::Sporadic { .. } => number::SPORADIC,
        Line::Relation { .. } => number::RELATION,
        Line::Implies { .. } => number::IMPLIES,
        Line::Excludes { .. } => number::EXCLUDES,
        Line::Delayed { .. } => number::DELAYED,
        Line::Weakly { .. } => number::WEAKLY,
        Line::Strictly { .. } => number::STRICTLY,
        Line::Kills { .. } => number::KILLS,
        Line::Counted { .. } => number::COUNTED,
    }
}

// A line's body at the front of six bytes; each field is within its type.
pub(crate) fn body_of(l: Line) -> [u8; 6]
    ensures { (result ≡ filled 6 0 (body_of l)) × IsLineValue l }
{
    match l {
        Line::Sporadic { a, b, t } => {
            let [low, high] = raw_of(t).to_le_bytes();
            [a, b, low, high, 0, 0]
        }
        Line::Relation { a, b, p, q } => {
            let [p_low, p_high] = raw_of(p).to_le_bytes();
            let [q_low, q_high] = raw_of(q).to_le_bytes();
            [a, b, p_low, p_high, q_low, q_high]
        }
        Line::Implies { a, b }
        | Line::Excludes { a, b }
        | Line::Weakly { a, b }
        | Line::Strictly { a, b }
        | Line::Kills { a, b } => [a, b, 0, 0, 0, 0],
        Line::Delayed { a, b, d, by } => {
            let [low, high] = by.to_le_bytes();
            [a, b, d, low, high, 0]
        }
        Line::Counted { a, b, d, n } => [a, b, d, n, 0, 0],
    }
}

// A line of a value to write, `spent` sporadic lines standing before it: 7, 18, 9.
#[tactic(auto, using(std::proofs::lemmas::Bool::Decides::nat_tests, crate::proofs::line::Table::tables, crate::proofs::line::Laws::six_bytes))]
pub(crate) fn check_line(l: Line, clocks: u8, spent: usize) -> Result<(), Refusal>
    ensures { (outcome_of result ≡ decide (value_line_checks clocks spent (kind_of l) (body_of l)) tt) × IsLineValue l }
{
    let kind = kind_of(l);
    let body = body_of(l);
    if !clocks_below(&body, front_clocks(kind), clocks) {
        return Err(Refusal::ClockNumber);
    }
    if is_uncounted(kind, &body) {
        return Err(Refusal::NoCount);
    }
    if is_ninth(kind, spent) {
        return Err(Refusal::NinthSporadic);
    }
    Ok(())
}

// How many bytes a line's record takes.
#[tactic(auto, using(crate::proofs::line::Table::tables))]
pub(crate) fn line_size(l: Line) -> usize
    ensures { result ≡ length (line_bytes l) }
{
    number::HEAD_LENGTH + length_of(kind_of(l))
}

// The first n bytes of a body, where they have room.
fn put_body(buffer: &mut [u8], at: usize, body: [u8; 6], n: usize)
    requires { (n ≤ 6) × (at + n ≤ length buffer.old) }
    ensures { buffer.new ≡ puts buffer.old at (take n body) }
{
    buffer[at..at + n].copy_from_slice(&body[..n]);
}

// A line's record, where it has room.
#[tactic(auto, using(crate::proofs::line::Table::tables))]
pub(crate) fn put_line(buffer: &mut [u8], at: usize, l: Line)
    requires { at + length (line_bytes l) ≤ length buffer.old }
    ensures { buffer.new ≡ puts buffer.old at (line_bytes l) }
{
    let kind = kind_of(l);
    let n = length_of(kind);
    put_head(buffer, at, n as u16, kind);
    put_body(buffer, at + number::HEAD_LENGTH, body_of(l), n);
}
