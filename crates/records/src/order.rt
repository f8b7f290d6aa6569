// The order of lines: by kind, then by the bytes of the body, compared from the first.
ghost use Rattle.std.specs.Prelude.{◌≡◌};
ghost use Rattle.records.specs.Order.{above, key_of};

use crate::line::{Line, body_of, kind_of};
use crate::number;

// How the lines of a sheet stand.
#[derive(Clone, Copy)]
pub enum Order {
    // Each above the one before it, so that none is repeated.
    Rising,
    // In any order, repeats allowed.
    Any,
}

// Whether a body is above another of its length. (A loop: the library's order of arrays takes a quarter more time, and every sheet that is read is compared.)
fn body_above(body: [u8; 6], other: [u8; 6]) -> bool
    ensures { result ≡ above body other }
{
    for i in 0..number::MAX_BODY {
        if body[i] != other[i] {
            return other[i] < body[i];
        }
    }
    false
}

// Whether a line is above another; bodies of one kind have one length, and zeros behind it.
pub(crate) fn is_above(l: Line, other: Line) -> bool
    ensures { result ≡ above (key_of l) (key_of other) }
{
    let kind = kind_of(l);
    let other_kind = kind_of(other);
    // (the test has a name of its own, since that of a comparison would go with what it compares)
    let same_kind = kind == other_kind;
    if same_kind {
        return body_above(body_of(l), body_of(other));
    }
    other_kind < kind
}
