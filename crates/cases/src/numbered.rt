// Instants with a number: the next, and numbers that are not the next.
use crate::damage::{Record, whole};
use crate::plan::word;
use records::form::Form;
use records::instant::Instant;
use records::refusal::Refusal;

// An instant with a number.
pub fn with_number(mut v: Instant, n: u64) -> Instant {
    v.form = Form::Numbered(word(n));
    v
}

// An instant with the number that is next where so many are held, or as it is.
pub fn next_of(v: Instant, held: usize, is_numbered: bool) -> Instant {
    if is_numbered {
        with_number(v, (held % 4096) as u64 + 1)
    } else {
        v
    }
}

pub fn is_numbered(v: Instant) -> bool {
    matches!(v.form, Form::Numbered(_))
}

// In how many ways a number is not the next.
pub const WRONG: u64 = 6;

// A number that is not the next where so many are held: 0, the last, one left out, the right low byte with another high byte, 4,000 and more.
pub fn wrong_number(held: usize, how: u64) -> u64 {
    let last = (held % 4096) as u64;
    match how {
        0 => 0,
        1 => last,
        2 => last + 2,
        3 => last + 1 + 256,
        4 => 4096 + last,
        _ => 65535,
    }
}

// The record of an instant with a number that is not the next: 19.
pub fn out_of_turn(v: Instant, clocks: u8, n: u64) -> Record {
    let mut r = whole(with_number(v, n), clocks);
    r.refusal = Some(Refusal::NotNext);
    r
}
