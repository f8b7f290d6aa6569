// An instant taken by a monitor whose remainders stand in rows: for `observe`, for the loop over a log, where they stay there from one instant to the next, and for a state of words, where they stay from one call to the next.
ghost use Rattle.std.specs.Prelude.{◌≡◌, ◌<◌, ◌≤◌};
ghost use Rattle.tesl.specs.Answer.{most_live};
ghost use Rattle.step.specs.Fill.{Working};
ghost use Rattle.judge.specs.Progress.{progress_of, first_progress, Works, Takes};

use crate::answer::{Answer, say_rows};
use crate::monitor::Monitor;
use lines::plan::{NUMBERS, Plan};
use records::instant::Instant;
use records::next::read_next;
use records::number;
use records::refusal::Refusal;
use remainders::rows::{HEAD, SIDES, SIZE};
use step::fill::{Before, work_rows};
use step::list::LIST;

// A monitor beside its sheet and its rows.
#[derive(Clone, Copy)]
pub struct Progress {
    // The number of instants.
    pub instants: usize,
    // The last tags.
    pub tags: [i16; 8],
    // How many remainders the rows hold.
    pub count: Option<usize>,
    // The first of their rows.
    pub from: usize,
}

// What an instant gives.
#[derive(Clone, Copy)]
pub struct InstantResult {
    // The answer, or why the instant is refused.
    pub reply: Result<Answer, Refusal>,
    // The monitor to call next.
    pub progress: Progress,
}

// A monitor as it is kept once its remainders are stored.
pub(crate) fn progress_of(monitor: Monitor) -> Progress
    ensures { result ≡ progress_of monitor }
{
    // through a variable: the borrow checker does not cover an array that goes straight from field to field
    let tags = monitor.tags;
    Progress {
        instants: monitor.instants,
        tags,
        count: monitor.held.count,
        from: HEAD,
    }
}

// Of no instant: one remainder, in the first row of the first side.
pub(crate) fn first_progress() -> Progress
    ensures { result ≡ first_progress }
{
    Progress {
        instants: 0,
        tags: [0i16; 8],
        count: Some(1),
        from: HEAD,
    }
}

// Works on an instant that was read, with room for so many remainders: the answer, with those held after it on the other side. What is promised holds of every sheet that the plan is of.
fn work_instant(
    progress: Progress,
    room: usize,
    plan: Plan,
    lines: &[u32; NUMBERS],
    instant: Instant,
    rows: &mut [u32; SIZE],
    list: &mut [bool; LIST],
) -> InstantResult
    requires { Working rows.old progress.from progress.count list.old × ((progress.instants < 4000) × (room ≤ most_live)) }
    ensures { Works room progress plan instant lines.now result rows.old rows.new list.new }
{
    // the tags through variables: the borrow checker does not cover an array that goes straight from field to field
    let was = progress.tags;
    let before = Before {
        first: progress.instants == 0,
        tags: was,
        room,
    };
    let next = work_rows(
        rows,
        progress.from,
        progress.count,
        plan,
        lines,
        before,
        instant,
        list,
    );
    let to = SIDES - progress.from;
    let tags = instant.tags;
    InstantResult {
        reply: Ok(say_rows(rows, to, next)),
        progress: Progress {
            instants: progress.instants + 1,
            tags,
            count: next,
            from: to,
        },
    }
}

// Takes an instant: refused, the number and the monitor as it came; accepted, the answer and the monitor after it.
pub fn observe_rows(
    progress: Progress,
    plan: Plan,
    lines: &[u32; NUMBERS],
    bytes: &[u8],
    rows: &mut [u32; SIZE],
    list: &mut [bool; LIST],
) -> InstantResult
    requires { Working rows.old progress.from progress.count list.old }
    ensures { Takes progress plan bytes.now lines.now result rows.old rows.new list.new }
{
    let clocks = plan.clocks as u8;
    match read_next(bytes, clocks, progress.instants) {
        Err(refusal) => InstantResult {
            reply: Err(refusal),
            progress,
        },
        Ok(instant) => {
            work_instant(progress, number::MAX_LIVE, plan, lines, instant, rows, list)
        }
    }
}
