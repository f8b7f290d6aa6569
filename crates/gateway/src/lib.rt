// The monitor for C and Rust, whose symbols `gateway_c` exports: calls over numbers and byte slices, and calls on a state of words that the caller lends; they take every input, and every array of words.
// A result of 64 bits, from its lowest byte up: the number of the refusal, or 0; the answer, 1 exhausted, 2 broken, 3 holding, 0 after a refusal;
// live, 0 unless holding; 1 if clear, else 0; and in the upper 32 bits the count of instants taken, or held in a state.
#![tactic(auto)]

mod owing;
mod pack;

ghost use Rattle.std.specs.Prelude.{◌≡◌};
ghost use Rattle.records.specs.Sheet.{read_sheet};
ghost use Rattle.records.specs.Instant.{read_instant};
ghost use Rattle.tesl.specs.Machine.{judge_log};
ghost use Rattle.logs.specs.Log.{watch_log};
ghost use Rattle.gateway.specs.Result.{number_of, judged_code, WatchedAs, shown_code};
ghost use Rattle.gateway.specs.Live.{LiftOpened, LiftObserved, last_code, owing_code};

use crate::owing::{owing_after, owing_count};
use crate::pack::{pack, pack_reply, refusal_in};
use lent::live::{STATE_WORDS, last_reply, monitor_in, observe_state, open_state};
use logs::log::{follow_log, judge_log, watch_log};
use records::instant::read_instant;
use records::sheet::read_sheet;

// Returns the result of a sheet and a whole log: the last answer, or the number of the first refusal and the count before it.
pub fn lift_judge(sheet: &[u8], log: &[u8]) -> u64
    ensures { result ≡ judged_code (judge_log sheet.now log.now) }
{
    let judged = judge_log(sheet, log);
    pack_reply(judged.reply, judged.instants)
}

// Returns the same result. The front of `out` then holds the answers to the instants taken, those before a refusal too, three bytes each: answer, live, clear.
// Later bytes stay. Where `out` is shorter than that: returns 10, no answer and the count of instants taken, and `out` stays as it was.
pub fn lift_watch(sheet: &[u8], log: &[u8], out: &mut [u8]) -> u64
    ensures { WatchedAs (watch_log sheet.now log.now out.old) result out.new }
{
    let judged = watch_log(sheet, log, out);
    pack_reply(judged.reply, judged.instants)
}

// Returns the number and the count of that result, and in the place of live how many of the live remainders owe the clock a tick after the log.
// After a refusal, broken or exhausted that is 0. The answer and clear are 0.
pub fn lift_panel(sheet: &[u8], log: &[u8], clock: u8) -> u64
    ensures { result ≡ shown_code sheet.now log.now clock }
{
    let last = follow_log(sheet, log);
    let owing = owing_after(last, clock);
    pack(refusal_in(last.reply), 0, owing, 0, last.instants)
}

// Opens a sheet into a state, whatever its words were. Returns the answer for no instant; or the number of the sheet's refusal alone, and then no word changes.
pub fn lift_open(sheet: &[u8], state: &mut [u32; STATE_WORDS]) -> u64
    ensures { LiftOpened sheet.now result state.old state.new }
{
    pack_reply(open_state(sheet, state), 0)
}

// Hands an instant to the monitor in a state. Returns the answer and the count of instants held, with this one; or the number of a refusal and the count held, and then no word changes. Words that are no monitor within its limits get 11 and the count 0, here and below.
pub fn lift_observe(state: &mut [u32; STATE_WORDS], instant: &[u8]) -> u64
    ensures { LiftObserved instant.now result state.old state.new }
{
    let replied = observe_state(state, instant);
    pack_reply(replied.reply, replied.instants)
}

// Returns the count of instants held, and in the place of live how many of the live remainders owe the clock a tick: 0 once broken or exhausted, and for a clock that the sheet doesn't have. The answer and clear are 0.
pub fn lift_owing(state: &[u32; STATE_WORDS], clock: u8) -> u64
    ensures { result ≡ owing_code clock state.now }
{
    let given = monitor_in(state);
    let owing = owing_count(given.monitor, clock);
    pack(refusal_in(given.reply), 0, owing, 0, given.monitor.instants)
}

// Returns the last answer and the count of instants held.
pub fn lift_last(state: &[u32; STATE_WORDS]) -> u64
    ensures { result ≡ last_code state.now }
{
    let last = last_reply(state);
    pack_reply(last.reply, last.instants)
}

// Returns the number of a sheet's refusal; 0 where it is taken.
pub fn lift_sheet_number(sheet: &[u8]) -> u8
    ensures { result ≡ number_of (read_sheet sheet.now) }
{
    refusal_in(read_sheet(sheet))
}

// Returns the number of an instant's refusal for a clock count; 0 where it is taken.
pub fn lift_instant_number(instant: &[u8], clocks: u8) -> u8
    ensures { result ≡ number_of (read_instant clocks instant.now) }
{
    refusal_in(read_instant(instant, clocks))
}
