// What an answer says.
use filler::verdict::Verdict;
use judge::answer::Answer;

// Whether an answer is the verdict on the whole run, live and clear with it.
pub fn is_verdict(a: Answer, v: Verdict) -> bool {
    match (a, v) {
        (Answer::Exhausted, Verdict::Exhausted) | (Answer::Broken, Verdict::Broken) => true,
        (Answer::Holding { live, clear }, Verdict::Holding { live: n, clear: c }) => {
            live == n && clear == c
        }
        _ => false,
    }
}

// The live count of an answer, 0 of one that isn't holding.
pub fn live_of(a: Answer) -> usize {
    match a {
        Answer::Holding { live, .. } => live,
        Answer::Exhausted | Answer::Broken => 0,
    }
}
