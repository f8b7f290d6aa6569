// The static library for C and Rust: the calls of `gateway`, exported, with the same clauses.
#![tactic(auto)]

ghost use Rattle.std.specs.Prelude.{◌≡◌};
ghost use Rattle.records.specs.Sheet.{read_sheet};
ghost use Rattle.records.specs.Instant.{read_instant};
ghost use Rattle.tesl.specs.Machine.{judge_log};
ghost use Rattle.logs.specs.Log.{watch_log};
ghost use Rattle.gateway.specs.Result.{number_of, judged_code, WatchedAs, shown_code};
ghost use Rattle.gateway.specs.Live.{LiftOpened, LiftObserved, last_code, owing_code};

use lent::live::STATE_WORDS;

#[unsafe(no_mangle)]
pub extern "C" fn lift_judge(sheet: &[u8], log: &[u8]) -> u64
    ensures { result ≡ judged_code (judge_log sheet.now log.now) }
{
    gateway::lift_judge(sheet, log)
}

#[unsafe(no_mangle)]
pub extern "C" fn lift_watch(sheet: &[u8], log: &[u8], out: &mut [u8]) -> u64
    ensures { WatchedAs (watch_log sheet.now log.now out.old) result out.new }
{
    gateway::lift_watch(sheet, log, out)
}

#[unsafe(no_mangle)]
pub extern "C" fn lift_panel(sheet: &[u8], log: &[u8], clock: u8) -> u64
    ensures { result ≡ shown_code sheet.now log.now clock }
{
    gateway::lift_panel(sheet, log, clock)
}

#[unsafe(no_mangle)]
pub extern "C" fn lift_open(sheet: &[u8], state: &mut [u32; STATE_WORDS]) -> u64
    ensures { LiftOpened sheet.now result state.old state.new }
{
    gateway::lift_open(sheet, state)
}

#[unsafe(no_mangle)]
pub extern "C" fn lift_observe(state: &mut [u32; STATE_WORDS], instant: &[u8]) -> u64
    ensures { LiftObserved instant.now result state.old state.new }
{
    gateway::lift_observe(state, instant)
}

#[unsafe(no_mangle)]
pub extern "C" fn lift_owing(state: &[u32; STATE_WORDS], clock: u8) -> u64
    ensures { result ≡ owing_code clock state.now }
{
    gateway::lift_owing(state, clock)
}

#[unsafe(no_mangle)]
pub extern "C" fn lift_last(state: &[u32; STATE_WORDS]) -> u64
    ensures { result ≡ last_code state.now }
{
    gateway::lift_last(state)
}

#[unsafe(no_mangle)]
pub extern "C" fn lift_sheet_number(sheet: &[u8]) -> u8
    ensures { result ≡ number_of (read_sheet sheet.now) }
{
    gateway::lift_sheet_number(sheet)
}

#[unsafe(no_mangle)]
pub extern "C" fn lift_instant_number(instant: &[u8], clocks: u8) -> u8
    ensures { result ≡ number_of (read_instant clocks instant.now) }
{
    gateway::lift_instant_number(instant, clocks)
}
