// An instant's record, damaged, and the refusal that is due.
use records::form::Form;
use records::instant::{Instant, write_instant};
use records::number;
use records::refusal::Refusal;

// A record as it is sent. There is no heap, so it is an array and a length.
#[derive(Clone, Copy)]
pub struct Record {
    // Its bytes, at the front.
    pub bytes: [u8; 40],
    // How many there are.
    pub len: usize,
    // Why it is refused, if it is.
    pub refusal: Option<Refusal>,
}

// A clock count with one clock more, for eight with one less.
fn another(clocks: u8) -> u8 {
    if clocks < 8 { clocks + 1 } else { 7 }
}

// The record of an instant; an instant that is refused has none.
pub fn whole(v: Instant, clocks: u8) -> Record {
    let mut bytes = [0; 40];
    let len = write_instant(v, clocks, &mut bytes).unwrap_or(0);
    Record {
        bytes,
        len,
        refusal: None,
    }
}

// A record with another byte at a place.
fn with_byte(mut r: Record, at: usize, x: u8, refusal: Refusal) -> Record {
    if at < 40 {
        r.bytes[at] = x;
    }
    r.refusal = Some(refusal);
    r
}

// A record that is not one, by its length.
fn with_len(mut r: Record, len: usize) -> Record {
    r.len = len;
    r.refusal = Some(Refusal::NotOneRecord);
    r
}

// Where the clocks of an instant's record begin.
fn clocks_at(v: Instant) -> usize {
    match v.form {
        Form::Plain => number::HEAD_LENGTH,
        Form::Numbered(_) => number::HEAD_LENGTH + number::NUMBER_LENGTH,
    }
}

// Kind 33 for kind 32, and the other way round.
fn other_kind(v: Instant) -> u8 {
    match v.form {
        Form::Plain => 33,
        Form::Numbered(_) => 32,
    }
}

// In how many ways a record is damaged.
pub const DAMAGES: u64 = 9;

// One of the ways, whatever number the instant has; of two faults the earlier checked decides.
pub fn damaged(v: Instant, clocks: u8, how: u64) -> Record {
    let r = whole(v, clocks);
    let n = r.len;
    let at = clocks_at(v);
    if n < 7 || 39 < n {
        return r;
    }
    match how {
        0 => with_len(r, n - 1),
        1 => with_len(r, 3),
        2 => with_len(with_byte(r, 2, 31, Refusal::NotInstant), n + 1),
        3 => with_byte(
            with_byte(r, at, 3, Refusal::TickByte),
            2,
            31,
            Refusal::NotInstant,
        ),
        4 => with_byte(r, 3, 1, Refusal::NotInstant),
        5 => with_byte(whole(v, another(clocks)), at, 3, Refusal::InstantLength),
        6 => with_byte(r, 2, other_kind(v), Refusal::InstantLength),
        7 => with_byte(r, at, 3, Refusal::TickByte),
        _ => with_byte(r, n - 3, 255, Refusal::TickByte),
    }
}
