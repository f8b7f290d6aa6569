// Counts, a place each.
ghost use Rattle.std.specs.Prelude.{◌≤◌};

pub const TALLY_PLACES: usize = 64;

pub type Tally = [u64; TALLY_PLACES];

#[derive(Clone, Copy)]
pub struct Ended {
    // The last number drawn of a case.
    pub last: u64,
    // What was counted up to its end.
    pub tally: Tally,
}

// One more at a place.
pub fn count(mut t: Tally, at: usize) -> Tally {
    if at < TALLY_PLACES {
        t[at] = t[at].saturating_add(1);
    }
    t
}

// One more at a place, where it is wanted.
pub fn count_if(wanted: bool, t: Tally, at: usize) -> Tally {
    if wanted { count(t, at) } else { t }
}

// The count at a place; 0 past the last.
pub fn counted(t: Tally, at: usize) -> u64 {
    if at < TALLY_PLACES { t[at] } else { 0 }
}

// An answer by its bytes in an entry (1 exhausted, 2 broken, 3 holding; 1 clear), at one of four places from the first on: clear, owed, broken, exhausted. Another byte is no answer.
pub fn count_answer(t: Tally, first: usize, answer: u64, clear: u64) -> Tally
    requires { first ≤ 60 }
{
    match answer {
        1 => count(t, first + 3),
        2 => count(t, first + 2),
        3 if clear == 0 => count(t, first + 1),
        3 => count(t, first),
        _ => t,
    }
}
