// A remainder: what it owes, at most eight obligations and at most eight countdowns, the leads of the lines and the stopped clocks.
ghost use Rattle.std.specs.Prelude.{◌≡◌};
ghost use Rattle.remainders.specs.View.{blank_remainder};

use crate::obligation::{BLANK, Obligation};

// There is no heap, so each set is an array and a count; the other arrays are by line and by clock.
#[derive(Clone, Copy)]
pub struct Remainder {
    // How many obligations, and these; their numbers are dues.
    pub owed: usize,
    pub obligations: [Obligation; 8],
    // How many countdowns, and these; their numbers are ticks still wanted.
    pub counting: usize,
    pub countdowns: [Obligation; 8],
    // Of each line its lead, of each clock whether it is stopped.
    pub leads: [u16; 16],
    pub stopped: [bool; 8],
}

// Nothing is owed, no line leads, no clock is stopped.
pub fn blank_remainder() -> Remainder
    ensures { result ≡ blank_remainder }
{
    Remainder {
        owed: 0,
        obligations: [BLANK; 8],
        counting: 0,
        countdowns: [BLANK; 8],
        leads: [0; 16],
        stopped: [false; 8],
    }
}
