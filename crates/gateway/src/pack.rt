// Answers and results as numbers.
ghost use Rattle.std.specs.Prelude.{◌≡◌, ◌≤◌};
ghost use Rattle.records.specs.Outcome.{outcome_of};
ghost use Rattle.judge.specs.Answer.{reply_of};
ghost use Rattle.gateway.specs.Result.{number_of, packed, judged_code};
ghost use Rattle.gateway.specs.Inner.{Packable};

use judge::answer::Answer;
use logs::entry::{answer_code, clear_code, live_code};
use records::refusal::Refusal;

// The number of a refusal; 0 where there is none.
pub(crate) fn refusal_in<T: Drop>(call: Result<T, Refusal>) -> u8
    ensures { result ≡ number_of (outcome_of call) }
{
    match call {
        Ok(_) => 0,
        Err(refusal) => u8::from(refusal),
    }
}

// A result: four bytes from the lowest up, then the count, 4,000 at most, so its cast loses nothing (a `usize` has no `from`).
pub(crate) fn pack(number: u8, answer: u8, live: u8, clear: u8, count: usize) -> u64
    requires { count ≤ 4000 }
    ensures { result ≡ packed number answer live clear count }
{
    u64::from(number)
        + 256 * u64::from(answer)
        + 65536 * u64::from(live)
        + 16777216 * u64::from(clear)
        // (a u64 has no `From` of a usize)
        + 4294967296 * (count as u64)
}

// The result of a reply and the count of instants taken.
pub(crate) fn pack_reply(reply: Result<Answer, Refusal>, count: usize) -> u64
    requires { Packable (record { outcome = reply_of reply; instants = count }) }
    ensures { result ≡ judged_code (record { outcome = reply_of reply; instants = count }) }
{
    match reply {
        Err(refusal) => pack(u8::from(refusal), 0, 0, 0, count),
        Ok(a) => pack(0, answer_code(a), live_code(a), clear_code(a), count),
    }
}
