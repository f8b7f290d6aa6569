// The monitor in a state of words that the caller lends: opened with a sheet, called instant by instant; between calls the words are all there is.
ghost use Rattle.std.specs.Prelude.{◌≡◌, [], length};
ghost use Rattle.records.specs.Sheet.{read_sheet};
ghost use Rattle.lines.specs.Plan.{numbers};
ghost use Rattle.lent.specs.Live.{OpenedIn, ObservedIn, SaidIn, GivenIn};
ghost use Rattle.lent.specs.Found.{FoundIn, KeepingNext, KeptNext};

use crate::rows_limits::rows_within;
use crate::state::{is_state, progress_in, put_format, put_progress, put_sheet, sheet_in};
use crate::unused::{clear_beside, clear_rows, tidy};
use judge::answer::{Answer, say_rows};
use judge::monitor::{CallResult, blank_monitor, refuse};
use judge::progress::{Progress, observe_rows};
use judge::start::begin;
use judge::stored::read_back;
use lines::plan::{NUMBERS, Plan, plan_of};
use records::number;
use records::refusal::Refusal;
use records::sheet::{blank_sheet, check_sheet, read_sheet};
use remainders::rows::{HEAD, SIZE};
use step::list::LIST;

// How many words a state has.
pub const STATE_WORDS: usize = SIZE;

// What a call on a state gives. (`Judged` in logs has the same fields and counts other instants; neither crate knows the other.)
#[derive(Clone, Copy)]
pub struct Replied {
    // The answer, or why the call is refused.
    pub reply: Result<Answer, Refusal>,
    // The instants that the state then holds.
    pub instants: usize,
}

// What is found out about a monitor within its limits.
#[derive(Clone, Copy)]
pub struct FoundState {
    // What it keeps beside its sheet and its rows.
    pub progress: Progress,
    // The plan of its sheet.
    pub plan: Plan,
}

// A monitor within its limits, if the words are one, and what is found out about its sheet: its lines go to `lines`.
fn find_state(state: &[u32; SIZE], lines: &mut [u32; NUMBERS]) -> Option<FoundState>
    requires { length lines.old ≡ numbers }
    ensures { FoundIn state.now result lines.new }
{
    if !is_state(state) {
        return None;
    }
    let sheet = sheet_in(state);
    check_sheet(sheet).ok()?;
    let progress = progress_in(state);
    // (the test has a name of its own, since that of a comparison would go with the bound)
    let many = number::MAX_INSTANTS < progress.instants;
    if many {
        return None;
    }
    let plan = plan_of(sheet, lines);
    if !rows_within(
        state,
        progress.from,
        progress.count,
        plan,
        progress.instants,
    ) {
        return None;
    }
    Some(FoundState { progress, plan })
}

// Stores the monitor after an accepted instant, once the words that no remainder uses are cleared.
fn keep_next(state: &mut [u32; SIZE], progress: Progress, next: Progress, plan: Plan)
    requires { KeepingNext state.old progress next }
    ensures { KeptNext plan progress next state.old state.new }
{
    tidy(state, progress.from, progress.count, next.count, plan);
    put_progress(state, next);
}

// Opens a sheet: refused, the number, and no word changes; else the answer for no instant, and the words are the monitor, whatever they were.
pub fn open_state(bytes: &[u8], state: &mut [u32; SIZE]) -> Result<Answer, Refusal>
    ensures { OpenedIn read_sheet bytes.now result state.old state.new }
{
    let sheet = read_sheet(bytes)?;
    clear_rows(state, 0, HEAD + 1);
    let mut lines = [0u32; NUMBERS];
    let begun = begin(sheet, &mut lines, state);
    clear_beside(state, HEAD, Some(1), begun.plan);
    put_format(state);
    put_sheet(state, sheet);
    put_progress(state, begun.progress);
    Ok(begun.said)
}

// Takes an instant: refused, the number, and no word changes; accepted, the answer, and the words are the monitor after it. Beside either, the instants that the state then holds.
pub fn observe_state(state: &mut [u32; SIZE], bytes: &[u8]) -> Replied
    ensures { ObservedIn bytes.now result state.old state.new }
{
    let mut lines = [0u32; NUMBERS];
    let Some(found) = find_state(state, &mut lines) else {
        return Replied {
            reply: Err(Refusal::MonitorLimits),
            instants: 0,
        };
    };
    let mut list = [false; LIST];
    let told = observe_rows(found.progress, found.plan, &lines, bytes, state, &mut list);
    let reply = told.reply;
    let instants = told.progress.instants;
    match reply {
        Err(_) => Replied { reply, instants },
        Ok(_) => {
            keep_next(state, found.progress, told.progress, found.plan);
            Replied { reply, instants }
        }
    }
}

// The last answer, and the instants held; 11 where the words are no monitor within its limits.
pub fn last_reply(state: &[u32; SIZE]) -> Replied
    ensures { SaidIn result state.now }
{
    let mut lines = [0u32; NUMBERS];
    let Some(found) = find_state(state, &mut lines) else {
        return Replied {
            reply: Err(Refusal::MonitorLimits),
            instants: 0,
        };
    };
    let progress = found.progress;
    Replied {
        reply: Ok(say_rows(state, progress.from, progress.count)),
        instants: progress.instants,
    }
}

// The monitor as a struct, and the last answer; 11, and no monitor, where the words are none within its limits.
pub fn monitor_in(state: &[u32; SIZE]) -> CallResult
    ensures { GivenIn result state.now }
{
    let mut lines = [0u32; NUMBERS];
    let Some(found) = find_state(state, &mut lines) else {
        return refuse(Refusal::MonitorLimits, blank_monitor(blank_sheet(0)));
    };
    let progress = found.progress;
    CallResult {
        reply: Ok(say_rows(state, progress.from, progress.count)),
        monitor: read_back(sheet_in(state), progress, found.plan, state),
    }
}
