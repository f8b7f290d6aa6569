// One question about a line at a filled instant to each function.
ghost use Rattle.std.specs.Prelude.{◌≡◌, ◌+ℤ◌, ◌*ℤ◌};
ghost use Rattle.tesl.specs.Fits.{eq_z};
ghost use Rattle.work.specs.Questions.{tags_hold, stopped_after};
ghost use Rattle.remainders.specs.Word.{due_of};
ghost use Rattle.lines.specs.Begun.{new_obligation, count_stored, LineBegins};

use records::line::Line;
use remainders::clock::{clock_tag, stop, ticks_at, wide};
use remainders::obligation::{Obligation, due_number};

// a = p × b + q, in whole numbers without wrapping.
fn is_product(a: i16, p: i16, b: i16, q: i16) -> bool
    ensures { result ≡ eq_z a (p *ℤ b +ℤ q) }
{
    wide(a) == wide(p) * wide(b) + wide(q)
}

// What a line asks of the tags alone: once per instant.
pub(crate) fn tags_hold(l: Line, tags: [i16; 8]) -> bool
    ensures { result ≡ tags_hold tags l }
{
    match l {
        Line::Relation { a, b, p, q } => is_product(clock_tag(tags, a), p, clock_tag(tags, b), q),
        Line::Sporadic { .. }
        | Line::Implies { .. }
        | Line::Excludes { .. }
        | Line::Delayed { .. }
        | Line::Weakly { .. }
        | Line::Strictly { .. }
        | Line::Kills { .. }
        | Line::Counted { .. } => true,
    }
}

// The stopped clocks after an instant, as far as one line stops them.
pub(crate) fn stopped_after(l: Line, ticks: [bool; 8], stopped: [bool; 8]) -> [bool; 8]
    ensures { result ≡ stopped_after ticks l stopped }
{
    match l {
        Line::Kills { a, b } => {
            if ticks_at(ticks, a) {
                stop(stopped, b)
            } else {
                stopped
            }
        }
        Line::Sporadic { .. }
        | Line::Relation { .. }
        | Line::Implies { .. }
        | Line::Excludes { .. }
        | Line::Delayed { .. }
        | Line::Weakly { .. }
        | Line::Strictly { .. }
        | Line::Counted { .. } => stopped,
    }
}

// The countdown of a counted line, where its A ticks.
fn begins_count(ticks: bool, b: u8, d: u8, n: u8) -> Option<Obligation>
    ensures { new_obligation result ≡ count_stored ticks b d n }
{
    if !ticks || n == 0 {
        return None;
    }
    Some(Obligation {
        clock: d,
        on: b,
        number: u16::from(n),
    })
}

// The obligation or countdown that a line begins at an instant; `most` is the number of the end of the scale.
pub(crate) fn begins(l: Line, ticks: [bool; 8], tags: [i16; 8], most: u16) -> Option<Obligation>
    ensures { LineBegins (due_of most) ticks tags l (new_obligation result) }
{
    match l {
        Line::Delayed { a, b, d, by } => {
            if !ticks_at(ticks, a) {
                return None;
            }
            let number = due_number(clock_tag(tags, b), by);
            if number <= u32::from(most) {
                Some(Obligation {
                    clock: d,
                    on: b,
                    number: number as u16,
                })
            } else {
                None
            }
        }
        Line::Counted { a, b, d, n } => begins_count(ticks_at(ticks, a), b, d, n),
        Line::Sporadic { .. }
        | Line::Relation { .. }
        | Line::Implies { .. }
        | Line::Excludes { .. }
        | Line::Weakly { .. }
        | Line::Strictly { .. }
        | Line::Kills { .. } => None,
    }
}
