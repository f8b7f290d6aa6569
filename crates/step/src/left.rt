// What a filled instant leaves of an obligation or of a countdown.
ghost use Rattle.std.specs.Prelude.{◌≡◌};
ghost use Rattle.work.specs.View.{filled_of};
ghost use Rattle.remainders.specs.Rows.{part_number};
ghost use Rattle.step.specs.Left.{left_owed, left_counting, left_in};

use remainders::clock::ticks_at;
use remainders::obligation::{Obligation, is_late, is_met};
use remainders::rows::Part;

#[derive(Clone, Copy)]
pub(crate) enum Left {
    // It is met, or its last tick has come with its clock's.
    Done,
    // It is late, or missed: the filling doesn't fit.
    Unfit,
    // It is left, perhaps with fewer ticks wanted.
    Still(Obligation),
}

// Of an obligation, which a tick of its clock meets where the on-tag equals its due.
fn left_owed(o: Obligation, ticks: [bool; 8], tags: [i16; 8]) -> Left
    ensures { result ≡ left_owed (filled_of ticks tags) o }
{
    if is_met(o, ticks, tags) {
        return Left::Done;
    }
    if is_late(o, tags) {
        return Left::Unfit;
    }
    Left::Still(o)
}

// Of a countdown: each tick of its on-clock is one fewer wanted, and the last asks for its clock's. None that wants no tick is left.
fn left_counting(o: Obligation, ticks: [bool; 8]) -> Left
    ensures { result ≡ left_counting ticks o }
{
    match o.number {
        0 => Left::Done,
        _ if !ticks_at(ticks, o.on) => Left::Still(o),
        1 if ticks_at(ticks, o.clock) => Left::Done,
        1 => Left::Unfit,
        wanted => Left::Still(Obligation {
            number: wanted - 1,
            ..o
        }),
    }
}

// Of one in the set of a part.
pub(crate) fn left_of(part: Part, o: Obligation, ticks: [bool; 8], tags: [i16; 8]) -> Left
    ensures { result ≡ left_in (part_number part) (filled_of ticks tags) o }
{
    match part {
        Part::Obligations => left_owed(o, ticks, tags),
        Part::Countdowns => left_counting(o, ticks),
    }
}
