// The remainders held: distinct ones, in the order in which they were found.
ghost use Rattle.std.specs.Prelude.{◌≡◌};
ghost use Rattle.remainders.specs.View.{live_count};

use crate::remainder::Remainder;
use records::sheet::Sheet;

// There is no heap, so it is an array and a count.
#[derive(Clone, Copy)]
pub struct Held {
    // How many are held: 0 when broken, and none once exhausted.
    pub count: Option<usize>,
    pub remainders: [Remainder; 32],
}

pub fn clocks_of(s: Sheet) -> usize
    ensures { result ≡ s.clocks }
{
    usize::from(s.clocks)
}

// How many are held; 0 once exhausted, and when broken.
pub fn live_in(count: Option<usize>) -> usize
    ensures { result ≡ live_count count }
{
    count.unwrap_or(0)
}
