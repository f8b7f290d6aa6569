// A sheet's bytes, damaged, and the refusal that is due.
use cases::damage::Record;
use cases::disorder::out_of_order;
use cases::tape::{Tape, cut, with_byte, with_record};
use records::refusal::Refusal;
use records::sheet::Sheet;

// In how many ways a sheet is damaged.
pub const WAYS: u64 = 18;

// A sheet's bytes, damaged.
#[derive(Clone, Copy)]
pub struct Faulty {
    // The bytes.
    pub tape: Tape,
    // Why they are refused.
    pub refusal: Refusal,
}

fn fault(tape: Tape, refusal: Refusal) -> Faulty {
    Faulty { tape, refusal }
}

// A line's record, of a kind and a length up to 36; all its numbers are 0, but for the second clock.
fn line(kind: u8, len: u8, b: u8) -> Record {
    let mut bytes = [0u8; 40];
    bytes[0] = len;
    bytes[2] = kind;
    bytes[5] = b;
    Record {
        bytes,
        len: 4 + usize::from(len),
        refusal: None,
    }
}

// A record with another last byte.
fn ending(mut r: Record, x: u8) -> Record {
    let last = r.len.wrapping_sub(1);
    if let Some(byte) = r.bytes.get_mut(last) {
        *byte = x;
    }
    r
}

// With so many records more, their last bytes 0, 1, 2 and so on.
fn with_rising(t: Tape, r: Record, times: u8) -> Tape {
    (0..times).fold(t, |all, i| with_record(all, ending(r, i)))
}

// Relation lines alone, in rising order.
fn relations(t: Tape, times: u8) -> Tape {
    with_rising(cut(t, 5), line(17, 6, 0), times)
}

// Sporadic lines alone, in rising order.
fn sporadics(t: Tape, times: u8) -> Tape {
    with_rising(cut(t, 5), line(16, 4, 0), times)
}

// The lines of a sheet out of order; of a sheet with none, a line put there twice.
fn disordered(t: Tape, s: Sheet, moves: bool, i: usize) -> Faulty {
    if s.count == 0 {
        let r = line(18, 2, 0);
        return fault(with_record(with_record(t, r), r), Refusal::NotAbove);
    }
    let x = out_of_order(s, moves, i);
    fault(x.tape, x.refusal)
}

// All but the last byte.
fn torn(t: Tape) -> Tape {
    cut(t, t.len.saturating_sub(1))
}

// One of the ways, of a sheet with fewer than 16 lines; i is the place of one of them. Of two faults of a line the earlier checked decides.
pub fn faulty_sheet(t: Tape, s: Sheet, how: u64, i: usize) -> Faulty {
    match how {
        0 => fault(torn(t), Refusal::TornSheet),
        1 => fault(cut(t, 0), Refusal::TornSheet),
        2 => fault(with_byte(t, 2, 16), Refusal::NotClocks),
        3 => fault(with_byte(t, 0, 0), Refusal::ClocksLength),
        4 => fault(with_byte(t, 4, 0), Refusal::ClockCount),
        5 => fault(with_byte(t, 4, 9), Refusal::ClockCount),
        6 => fault(with_record(t, line(15, 2, 0)), Refusal::LineKind),
        7 => fault(with_record(t, line(25, 2, 0)), Refusal::LineKind),
        8 => fault(with_record(t, line(18, 3, 0)), Refusal::LineLength),
        9 => fault(with_record(t, line(18, 2, s.clocks)), Refusal::ClockNumber),
        10 => fault(with_record(t, line(24, 4, s.clocks)), Refusal::ClockNumber),
        11 => fault(with_record(t, line(24, 4, 0)), Refusal::NoCount),
        12 => fault(relations(t, 17), Refusal::SeventeenthLine),
        13 => fault(sporadics(t, 9), Refusal::NinthSporadic),
        14 => fault(
            with_record(relations(t, 16), ending(line(17, 6, 0), 15)),
            Refusal::SeventeenthLine,
        ),
        15 => fault(
            with_record(sporadics(t, 8), ending(line(16, 4, 0), 7)),
            Refusal::NinthSporadic,
        ),
        16 => disordered(t, s, false, i),
        _ => disordered(t, s, true, i),
    }
}
