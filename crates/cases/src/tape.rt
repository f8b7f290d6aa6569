// Bytes one after the other: a sheet, or a log.
use crate::damage::Record;
use records::sheet::{Sheet, write_sheet};

// There is no heap, so it is an array and a length. (A line of text in the crate text has two such fields too, and no function in common.)
#[derive(Clone, Copy)]
pub struct Tape {
    // The bytes, at the front.
    pub bytes: [u8; 512],
    // How many there are.
    pub len: usize,
}

// An empty tape.
pub fn no_bytes() -> Tape {
    Tape {
        bytes: [0; 512],
        len: 0,
    }
}

// The bytes of a sheet; none of one that can't be written.
pub fn sheet_tape(s: Sheet) -> Tape {
    let mut bytes = [0; 512];
    let len = write_sheet(s, &mut bytes).unwrap_or(0);
    Tape { bytes, len }
}

// With the bytes of a source from a place to before a later one, behind the others, where they have room.
fn with_bytes(mut t: Tape, source: &[u8], from: usize, to: usize) -> Tape {
    let at = t.len;
    if source.len() < to || to < from || 512 < at || 512 - at < to - from {
        return t;
    }
    let end = at + (to - from);
    t.bytes[at..end].copy_from_slice(&source[from..to]);
    t.len = end;
    t
}

// With a record behind the others, where it has room.
pub fn with_record(t: Tape, r: Record) -> Tape {
    with_bytes(t, &r.bytes, 0, r.len)
}

// With a part of another tape behind the others, where it has room.
pub fn with_part(t: Tape, other: Tape, from: usize, to: usize) -> Tape {
    with_bytes(t, &other.bytes, from, to)
}

// With another byte at a place.
pub fn with_byte(mut t: Tape, at: usize, x: u8) -> Tape {
    if at < 512 {
        t.bytes[at] = x;
    }
    t
}

// The first bytes alone.
pub fn cut(mut t: Tape, len: usize) -> Tape {
    t.len = len;
    t
}

// The first n bytes, or all where there are fewer.
pub fn front(bytes: &[u8], n: usize) -> &[u8] {
    &bytes[..n.min(bytes.len())]
}
