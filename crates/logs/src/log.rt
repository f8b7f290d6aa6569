// A whole log: a sheet opened, then its instants, record by record, by a monitor that stays in rows.
ghost use Rattle.std.specs.Prelude.{◌≡◌};
ghost use Rattle.tesl.specs.Machine.{judge_log};
ghost use Rattle.step.specs.Fill.{Working};
ghost use Rattle.logs.specs.Log.{judged_of, watched_as, watch_log, FollowsLog};
ghost use Rattle.logs.specs.Records.{ObservedRecords, ObservedLog};

use crate::count::count_log;
use crate::entry::{ENTRY_LENGTH, put_entry};
use judge::answer::Answer;
use judge::monitor::{Monitor, blank_monitor};
use judge::progress::{Progress, observe_rows};
use judge::start::{Begun, begin};
use judge::stored::read_back;
use lines::plan::NUMBERS;
use records::record::record_bytes;
use records::refusal::Refusal;
use records::sheet::{blank_sheet, read_sheet};
use remainders::rows::SIZE;
use step::list::LIST;

// What a whole log came to. (`Replied` in lent has the same fields and counts other instants; neither crate knows the other.)
#[derive(Clone, Copy)]
pub struct Judged {
    // The last answer, or the first refusal.
    pub reply: Result<Answer, Refusal>,
    // The count of instants taken before it.
    pub instants: usize,
}

// The same, with the monitor after the instants taken.
#[derive(Clone, Copy)]
pub struct LastMonitor {
    pub reply: Result<Answer, Refusal>,
    pub instants: usize,
    pub monitor: Monitor,
}

// The same, with the monitor in rows.
#[derive(Clone, Copy)]
struct LastRows {
    reply: Result<Answer, Refusal>,
    instants: usize,
    progress: Progress,
}

// Observes the records of a log one by one, up to the first that is refused, with a monitor begun in rows, where it changes sides at each instant. Each answer goes into the buffer, where there is room.
fn observe_records(
    log: &[u8],
    begun: Begun,
    lines: &[u32; NUMBERS],
    rows: &mut [u32; SIZE],
    list: &mut [bool; LIST],
    out: &mut [u8],
) -> LastRows
    requires { Working rows.old begun.progress.from begun.progress.count list.old }
    ensures { ObservedRecords log.now begun lines.now result rows.old rows.new list.new out.old out.new }
{
    let mut progress = begun.progress;
    let mut reply = Ok(begun.said);
    let mut instants = 0;
    let mut end = 0;
    let mut at = 0;
    while at < log.len() {
        let record = record_bytes(log, at);
        let told = observe_rows(progress, begun.plan, lines, record, rows, list);
        progress = told.progress;
        let Ok(answer) = told.reply else {
            return LastRows {
                reply: told.reply,
                instants,
                progress,
            };
        };
        reply = told.reply;
        end = put_entry(out, end, answer);
        instants += 1;
        at += record.len();
    }
    LastRows {
        reply,
        instants,
        progress,
    }
}

// Opens a sheet and observes a whole log, up to the first refusal, in rows of its own; the answers go into the buffer, where there is room.
fn observe_log(sheet: &[u8], log: &[u8], out: &mut [u8]) -> LastMonitor
    ensures { ObservedLog sheet.now log.now result out.old out.new }
{
    match read_sheet(sheet) {
        Err(refusal) => LastMonitor {
            reply: Err(refusal),
            instants: 0,
            monitor: blank_monitor(blank_sheet(0)),
        },
        Ok(value) => {
            let mut lines = [0u32; NUMBERS];
            let mut rows = [0u32; SIZE];
            let begun = begin(value, &mut lines, &mut rows);
            let mut list = [false; LIST];
            let last = observe_records(log, begun, &lines, &mut rows, &mut list, out);
            LastMonitor {
                reply: last.reply,
                instants: last.instants,
                monitor: read_back(value, last.progress, begun.plan, &rows),
            }
        }
    }
}

// Judges a sheet and a whole log; the first refusal ends it.
pub fn judge_log(sheet: &[u8], log: &[u8]) -> Judged
    ensures { judged_of result ≡ judge_log sheet.now log.now }
{
    let mut none = [0u8; 1];
    let last = observe_log(sheet, log, &mut none);
    Judged {
        reply: last.reply,
        instants: last.instants,
    }
}

// The same, with the monitor after the log.
pub fn follow_log(sheet: &[u8], log: &[u8]) -> LastMonitor
    ensures { FollowsLog sheet.now log.now result }
{
    let mut none = [0u8; 1];
    observe_log(sheet, log, &mut none)
}

// Judges a sheet and a whole log, with the answers to the instants taken at the buffer's front, three bytes each, later bytes staying. Where they have no room: 10 and the count of instants, and the buffer stays as it was.
pub fn watch_log(sheet: &[u8], log: &[u8], out: &mut [u8]) -> Judged
    ensures { watched_as (judged_of result) out.new ≡ watch_log sheet.now log.now out.old }
{
    let count = count_log(sheet, log);
    if out.len() < ENTRY_LENGTH * count {
        return Judged {
            reply: Err(Refusal::ShortBuffer),
            instants: count,
        };
    }
    let last = observe_log(sheet, log, out);
    Judged {
        reply: last.reply,
        instants: last.instants,
    }
}
