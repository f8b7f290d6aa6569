// A sheet value or an instant value written, and a sheet sorted, into a room.
use crate::fields::{number_of, parted};
use crate::room::{ROOM, both, marked, outcome};
use crate::tape::{byte_at, tape_of};
use crate::values::{instant_of, sheet_of};
use records::instant::write_instant;
use records::refusal::Refusal;
use records::sheet::write_sheet;
use std::io;

// Writes the sheet value that bytes tell.
pub fn sheet_written(told: &[u8], room: &mut [u8]) -> Result<usize, Refusal> {
    write_sheet(sheet_of(told), room)
}

// Writes the instant value that bytes tell behind its clock count.
pub fn instant_written(told: &[u8], room: &mut [u8]) -> Result<usize, Refusal> {
    write_instant(instant_of(told), byte_at(told, 0), room)
}

// Into the first bytes of the room, as many as told.
pub fn write_row<F: Fn(&[u8], &mut [u8]) -> Result<usize, Refusal>>(
    rt: &impl Print,
    name: &str,
    fields: &str,
    write: F,
) -> io::Result<()>
    requires { F.IsAlwaysCallable write }
{
    let (size, text) = parted(fields);
    let size = number_of(size);
    if ROOM < size {
        return Ok(());
    }
    let mut room = marked();
    let written = write(tape_of(text).told(), &mut room[..size]);
    print!(rt; "  {name}: ")?;
    outcome(rt, written, &room)
}

// Two, each into a room of its own.
pub fn both_row<F: Fn(&[u8], &mut [u8]) -> Result<usize, Refusal>>(
    rt: &impl Print,
    name: &str,
    fields: &str,
    write: F,
) -> io::Result<()>
    requires { F.IsAlwaysCallable write }
{
    let (first, second) = parted(fields);
    let mut one = marked();
    let mut other = marked();
    let r = write(tape_of(first).told(), &mut one);
    let s = write(tape_of(second).told(), &mut other);
    print!(rt; "  {name}: ")?;
    both(rt, r, &one, s, &other)
}
