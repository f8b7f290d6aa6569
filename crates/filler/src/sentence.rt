// What each kind of line says of the instants of a filled run.
ghost use Rattle.std.specs.Prelude.{◌≤◌, length};

use crate::history::Filled;
use crate::obligation::{begun_at, is_kept};

// No clock's tag is below its tag at the instant before.
pub(crate) fn never_falls(f: &[Filled]) -> bool {
    (0..8).all(|k| f.is_sorted_by_key(|v| v.tag(k)))
}

// a = p × b + q, in 64 bits, where products and sums of tags don't wrap.
fn is_product(a: i16, p: i16, b: i16, q: i16) -> bool {
    i64::from(a) == i64::from(p) * i64::from(b) + i64::from(q)
}

// A = p × B + q at each instant.
pub(crate) fn relation(f: &[Filled], a: u8, b: u8, p: i16, q: i16) -> bool {
    f.iter().all(|v| is_product(v.tag(a), p, v.tag(b), q))
}

// Where A ticks, B ticks.
pub(crate) fn implies(f: &[Filled], a: u8, b: u8) -> bool {
    f.iter().all(|v| !v.ticks(a) || v.ticks(b))
}

// A and B never tick together.
pub(crate) fn excludes(f: &[Filled], a: u8, b: u8) -> bool {
    !f.iter().any(|v| v.ticks(a) && v.ticks(b))
}

// It ticks at one of the instants.
pub(crate) fn has_ticked(f: &[Filled], a: u8) -> bool {
    f.iter().any(|v| v.ticks(a))
}

// If A ticks at an instant, B doesn't tick there or later.
pub(crate) fn kills(f: &[Filled], a: u8, b: u8) -> bool {
    !f.iter()
        .enumerate()
        .any(|(i, v)| v.ticks(a) && has_ticked(&f[i..], b))
}

// At how many of the instants it ticks.
pub(crate) fn tick_count(f: &[Filled], a: u8) -> usize
    ensures { result ≤ length f.now }
{
    f.iter().filter(|v| v.ticks(a)).count()
}

// Up to and with each instant, A has ticked at least as often as B.
pub(crate) fn weakly(f: &[Filled], a: u8, b: u8) -> bool {
    (1..=f.len()).all(|i| tick_count(&f[..i], b) <= tick_count(&f[..i], a))
}

// A's ticks before each instant are at least B's ticks up to and with it.
pub(crate) fn strictly(f: &[Filled], a: u8, b: u8) -> bool {
    (0..f.len()).all(|i| tick_count(&f[..=i], b) <= tick_count(&f[..i], a))
}

// Each tick of A begins an obligation that a later instant meets, or whose due is not passed.
pub(crate) fn delayed(f: &[Filled], a: u8, b: u8, d: u8, by: u16) -> bool {
    f.iter().enumerate().all(|(i, v)| !v.ticks(a) || is_kept(&f[i + 1..], begun_at(v, b, d, by)))
}

// Where B makes its tick number `wanted` of the instants, D ticks.
fn is_answered(f: &[Filled], b: u8, d: u8, wanted: usize) -> bool {
    f.iter().enumerate().all(|(i, v)| !v.ticks(b)
        || v.ticks(d)
        || tick_count(&f[..=i], b) != wanted)
}

// After each tick of A, D ticks at the instant at which B makes its later tick of that number; B's ticks count from the following instant on.
pub(crate) fn counted(f: &[Filled], a: u8, b: u8, d: u8, number: u8) -> bool {
    f.iter().enumerate().all(|(i, v)| !v.ticks(a)
        || is_answered(&f[i + 1..], b, d, usize::from(number)))
}
