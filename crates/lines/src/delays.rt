// What lines of the plan begin by a filling: the obligations of its delay lines, each once, and behind them the countdowns of its counted lines, each once.
ghost use Rattle.std.specs.Prelude.{◌+◌, ◌≤◌};
ghost use Rattle.remainders.specs.Word.{due_of};
ghost use Rattle.lines.specs.Plan.{plan_rows};
ghost use Rattle.lines.specs.Begun.{PartBegins, LinesBegin};

use crate::line::begins;
use crate::plan::{COUNTED, DELAYS, NUMBERS};
use crate::sorted::plan_line;
use remainders::obligation::{BLANK, Obligation};

// The first `owed` are obligations, those from there to `count` countdowns. There is no heap, so it is an array and its counts.
#[derive(Clone, Copy)]
pub struct NewObligations {
    pub owed: usize,
    pub count: usize,
    pub begun: [Obligation; 16],
}

// Adds what n lines of the plan from row `from` on begin, each once, behind the `first` that are there; tells how many there are then. `most` is the number of the end of the scale.
fn begin_lines(
    lines: &[u32; NUMBERS],
    from: usize,
    n: usize,
    ticks: [bool; 8],
    tags: [i16; 8],
    most: u16,
    first: usize,
    begun: &mut [Obligation; 16],
) -> usize
    requires { (first + n ≤ 16) × (from + n ≤ plan_rows) }
    ensures { PartBegins (due_of most) lines.now from n ticks tags first result begun.old begun.new }
{
    let mut count = first;
    for j in 0..n {
        if let Some(o) = begins(plan_line(lines, from + j), ticks, tags, most) {
            if !begun[first..count].contains(&o) {
                begun[count] = o;
                count += 1;
            }
        }
    }
    count
}

// What all those lines begin, at most one to a line; `most` is the number of the end of the scale. An obligation and a countdown with the same numbers are two things: what is new is looked for in its own part.
pub fn begin_delays(
    lines: &[u32; NUMBERS],
    delays: usize,
    counted: usize,
    ticks: [bool; 8],
    tags: [i16; 8],
    most: u16,
) -> NewObligations
    requires { delays + counted ≤ 16 }
    ensures { LinesBegin (due_of most) lines.now delays counted ticks tags result.owed result.count result.begun }
{
    let mut begun = [BLANK; 16];
    let owed = begin_lines(lines, DELAYS, delays, ticks, tags, most, 0, &mut begun);
    let count = begin_lines(lines, COUNTED, counted, ticks, tags, most, owed, &mut begun);
    NewObligations { owed, count, begun }
}
