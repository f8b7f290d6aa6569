// An answer as numbers, and its three bytes.
ghost use Rattle.std.specs.Prelude.{◌≡◌, ◌≤◌, length};
ghost use Rattle.remainders.specs.Word.{byte_in};
ghost use Rattle.judge.specs.Answer.{answer_of};
ghost use Rattle.logs.specs.Entry.{answer_code, live_code, clear_code, PutEntry};

use judge::answer::Answer;

// The bytes of an answer.
pub const ENTRY_LENGTH: usize = 3;

// How many values a byte has.
const BYTE_VALUES: usize = 256;

// 1 exhausted, 2 broken, 3 holding.
pub fn answer_code(a: Answer) -> u8
    ensures { result ≡ answer_code (answer_of a) }
{
    match a {
        Answer::Exhausted => 1,
        Answer::Broken => 2,
        Answer::Holding { .. } => 3,
    }
}

// Live, in a byte; 0 unless holding.
pub fn live_code(a: Answer) -> u8
    ensures { result ≡ byte_in (live_code (answer_of a)) }
{
    match a {
        Answer::Exhausted | Answer::Broken => 0,
        Answer::Holding { live, .. } => (live % BYTE_VALUES) as u8,
    }
}

// 1 if clear, else 0.
pub fn clear_code(a: Answer) -> u8
    ensures { result ≡ clear_code (answer_of a) }
{
    match a {
        Answer::Exhausted | Answer::Broken => 0,
        Answer::Holding { clear, .. } => u8::from(clear),
    }
}

// Stores an answer's bytes behind the first `at`, if there is room for them, and tells where the next would stand.
pub(crate) fn put_entry(out: &mut [u8], at: usize, a: Answer) -> usize
    requires { at ≤ length out.old }
    ensures { PutEntry (answer_of a) at result out.old out.new }
{
    if out.len() - at < ENTRY_LENGTH {
        return at;
    }
    out[at] = answer_code(a);
    out[at + 1] = live_code(a);
    out[at + 2] = clear_code(a);
    at + ENTRY_LENGTH
}
