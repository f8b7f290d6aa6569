// Obligations: a clock that owes a tick where the on-clock's tag is the due. The due is held as a number, counted from the least tag.
ghost use Rattle.std.specs.Prelude.{◌≡◌, not, pos, ◌+ℤ◌};
ghost use Rattle.std.specs.Int.Signed.{le_z};
ghost use Rattle.tesl.specs.Run.{tag_in};
ghost use Rattle.tesl.specs.Fits.{meets};
ghost use Rattle.work.specs.View.{filled_of};
ghost use Rattle.remainders.specs.Word.{due_of};
ghost use Rattle.remainders.specs.View.{obligation_of, same_stored};

use crate::clock::{clock_tag, ticks_at, wide};

#[derive(Clone, Copy, PartialEq, Eq)]
pub struct Obligation {
    // its clock
    pub clock: u8,
    // the clock that it is on
    pub on: u8,
    // in the set of obligations the due, counted from the least tag; in the set of countdowns the ticks of the on-clock still wanted
    pub number: u16,
}

// What unused places hold.
pub const BLANK: Obligation = Obligation {
    clock: 0,
    on: 0,
    number: 0,
};

// The numbers of dues, counted from the least tag: from it to the end of the scale, 32,767.
pub const LEAST_DUE: u16 = 0;

pub const MOST_DUE: u16 = 65535;

// Ticks still wanted.
pub const LEAST_WANTED: u16 = 1;

pub const MOST_WANTED: u16 = 255;

// The tags below 0: the least is −32,768.
const NEGATIVE_TAGS: i64 = 32768;

// The number of the due of a delay that begins at a tag: the sum is formed in 64 bits, and fits 32, so that nothing is lost.
pub fn due_number(tag: i16, delay: u16) -> u32
    ensures { due_of result ≡ tag +ℤ pos delay }
{
    let number = wide(tag) + i64::from(delay) + NEGATIVE_TAGS;
    number as u32
}

// The number of a tag.
pub fn tag_number(tag: i16) -> u16
    ensures { due_of result ≡ tag }
{
    due_number(tag, 0) as u16
}

// The same as they are stored, whatever their numbers are read as.
pub fn same_obligation(a: Obligation, b: Obligation) -> bool
    ensures { result ≡ same_stored a b }
{
    a == b
}

// A tick of its clock at an instant whose on-tag equals the due.
pub fn is_met(o: Obligation, ticks: [bool; 8], tags: [i16; 8]) -> bool
    ensures { result ≡ meets (filled_of ticks tags) (obligation_of o) }
{
    ticks_at(ticks, o.clock) && tag_number(clock_tag(tags, o.on)) == o.number
}

// The on-tag has passed the due.
pub fn is_late(o: Obligation, tags: [i16; 8]) -> bool
    ensures { result ≡ not (le_z (tag_in tags o.on) (obligation_of o).due) }
{
    o.number < tag_number(clock_tag(tags, o.on))
}
