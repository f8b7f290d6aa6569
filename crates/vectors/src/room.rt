// Room to write into, marked so that a byte that was written shows.
use crate::tape::front;
use crate::text::{counted, listing};
use records::refusal::Refusal;
use std::io;

// How many bytes it has.
pub const ROOM: usize = 192;

// What each of its bytes is before.
const MARK: u8 = 0xA5;

pub fn marked() -> [u8; ROOM] {
    [MARK; ROOM]
}

// What became of the bytes from n on, in a word.
fn rest_of(room: &[u8; ROOM], n: usize) -> &'static str {
    if room.iter().skip(n).all(|x| *x == MARK) {
        "untouched"
    } else {
        "changed"
    }
}

// What came of writing back what was read from `bytes`.
pub fn written_back(
    rt: &impl Print,
    written: Result<usize, Refusal>,
    room: &[u8; ROOM],
    bytes: &[u8],
) -> io::Result<()> {
    match written {
        Err(refusal) => print!(rt; ", writing back refused {}", u8::from(refusal)),
        Ok(n) => {
            let same = if front(room, n) == bytes {
                "same"
            } else {
                "other"
            };
            let rest = rest_of(room, n);
            print!(rt; ", ")?;
            counted(rt, n, "byte")?;
            print!(rt; " written back, {same} bytes, rest {rest}")
        }
    }
}

// 'written' with how many bytes, or the refusal.
fn answer(rt: &impl Print, written: Result<usize, Refusal>) -> io::Result<()> {
    match written {
        Err(refusal) => print!(rt; "refused {}", u8::from(refusal)),
        Ok(n) => print!(rt; "written {n}"),
    }
}

// What came of writing a value, and what the room holds.
pub fn outcome(
    rt: &impl Print,
    written: Result<usize, Refusal>,
    room: &[u8; ROOM],
) -> io::Result<()> {
    answer(rt, written)?;
    match written {
        Err(_) => {
            let rest = rest_of(room, 0);
            println!(rt; ", buffer {rest}")
        }
        Ok(n) => {
            let rest = rest_of(room, n);
            print!(rt; ", rest {rest}:")?;
            listing(rt, front(room, n))?;
            println!(rt)
        }
    }
}

// What came of writing two values, and whether the rooms hold the same bytes.
pub fn both(
    rt: &impl Print,
    first: Result<usize, Refusal>,
    one: &[u8; ROOM],
    second: Result<usize, Refusal>,
    other: &[u8; ROOM],
) -> io::Result<()> {
    let bytes = if one == other { "same" } else { "different" };
    answer(rt, first)?;
    print!(rt; " and ")?;
    answer(rt, second)?;
    println!(rt; ", {bytes} bytes")
}
