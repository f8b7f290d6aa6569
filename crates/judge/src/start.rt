// A monitor of no instant: what its sheet owes before the first instant is the remainder that it begins with, in a row.
ghost use Rattle.std.specs.Prelude.{◌≡◌, map};
ghost use Rattle.records.specs.Sheet.{sheet_value};
ghost use Rattle.tesl.specs.Lists.{flat_map};
ghost use Rattle.tesl.specs.Fits.{owed_at_start};
ghost use Rattle.remainders.specs.View.{obligation_of};
ghost use Rattle.lines.specs.Begun.{new_obligation};
ghost use Rattle.lines.specs.Plan.{Preparing};
ghost use Rattle.remainders.specs.Rows.{head_rows, Row};
ghost use Rattle.judge.specs.Start.{BlankRow, StartedRow, BegunRows, BegunMonitor};

use crate::answer::{Answer, say_rows};
use crate::progress::{Progress, first_progress};
use lines::plan::{NUMBERS, Plan, plan_of};
use records::line::Line;
use records::sheet::{Sheet, line_at};
use remainders::obligation::{Obligation, tag_number};
use remainders::rows::{HEAD, Part, SIZE};
use step::advance::add_row;

// A monitor begun, beside its sheet and its rows.
#[derive(Clone, Copy)]
pub struct Begun {
    // What was found out about the sheet.
    pub plan: Plan,
    // What is kept beside the rows.
    pub progress: Progress,
    // The answer for no instant.
    pub said: Answer,
}

// The obligation that a line is from the start.
fn owed_at_start(l: Line) -> Option<Obligation>
    ensures { map obligation_of (new_obligation result) ≡ owed_at_start l }
{
    match l {
        Line::Sporadic { a, b, t } => Some(Obligation {
            clock: a,
            on: b,
            number: tag_number(t),
        }),
        Line::Relation { .. }
        | Line::Implies { .. }
        | Line::Excludes { .. }
        | Line::Delayed { .. }
        | Line::Weakly { .. }
        | Line::Strictly { .. }
        | Line::Kills { .. }
        | Line::Counted { .. } => None,
    }
}

// Row i with what each line owes from the start. False: one had no room.
fn start_row(rows: &mut [u32; SIZE], i: usize, s: Sheet) -> bool
    requires { Row rows.old i 0 }
    ensures { StartedRow i (flat_map owed_at_start (sheet_value s).lines) result rows.old rows.new }
{
    for j in 0..s.count {
        let Some(o) = owed_at_start(line_at(s, j)) else {
            continue;
        };
        if !add_row(rows, i, Part::Obligations, o) {
            return false;
        }
    }
    true
}

// Stores the remainder of no instant in the first row of the first side, where all words are 0.
fn begin_rows(rows: &mut [u32; SIZE], s: Sheet)
    requires { BlankRow rows.old head_rows }
    ensures { BegunRows (sheet_value s) rows.old rows.new }
{
    let _room = start_row(rows, HEAD, s);
}

// Begins the monitor of a sheet that was read: its lines go to `lines`, its remainder into the first row of the first side, where all words are 0.
pub fn begin(s: Sheet, lines: &mut [u32; NUMBERS], rows: &mut [u32; SIZE]) -> Begun
    requires { Preparing s lines.old × BlankRow rows.old head_rows }
    ensures { BegunMonitor s result lines.new rows.old rows.new }
{
    let plan = plan_of(s, lines);
    begin_rows(rows, s);
    let progress = first_progress();
    let said = say_rows(rows, HEAD, progress.count);
    Begun {
        plan,
        progress,
        said,
    }
}
