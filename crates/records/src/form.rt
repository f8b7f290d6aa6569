// The form of an instant's record: plain, or numbered with its number.
ghost use Rattle.std.specs.Prelude.{◌≡◌, ◌+◌, ◌≤◌, length};
ghost use Rattle.records.specs.Store.{puts};
ghost use Rattle.records.specs.Instant.{is_instant_kind, number_length, form_of, form_kind, number_bytes};

use crate::number;
use crate::word::{put_word, word_at};

// Each case is a kind of record, and further kinds are further cases, so it is no Option of a number.
#[derive(Clone, Copy, Debug, PartialEq, Eq)]
pub enum Form {
    // Kind 32: the clocks alone.
    Plain,
    // Kind 33: the instant's number, 1 for the first of a run, and then the clocks.
    Numbered(u16),
}

// Whether a kind is that of an instant.
pub(crate) fn is_instant_kind(kind: u16) -> bool
    ensures { result ≡ is_instant_kind kind }
{
    matches!(kind, number::INSTANT | number::NUMBERED)
}

// How many bytes of a body precede the clocks, by its kind.
pub(crate) fn number_length(kind: u16) -> usize
    ensures { result ≡ number_length kind }
{
    match kind {
        number::NUMBERED => number::NUMBER_LENGTH,
        _ => 0,
    }
}

// The form of a kind, from a body that has what precedes the kind's clocks.
pub(crate) fn form_of(kind: u16, body: &[u8]) -> Form
    requires { number_length kind ≤ length body.now }
    ensures { result ≡ form_of kind body.now }
{
    match kind {
        number::NUMBERED => Form::Numbered(word_at(body, 0)),
        _ => Form::Plain,
    }
}

pub(crate) fn form_kind(form: Form) -> u16
    ensures { result ≡ form_kind form }
{
    match form {
        Form::Plain => number::INSTANT,
        Form::Numbered(_) => number::NUMBERED,
    }
}

// How many bytes precede the clocks.
pub(crate) fn form_length(form: Form) -> usize
    ensures { result ≡ length (number_bytes form) }
{
    match form {
        Form::Plain => 0,
        Form::Numbered(_) => number::NUMBER_LENGTH,
    }
}

// What precedes the clocks, where it has room.
pub(crate) fn put_number(buffer: &mut [u8], at: usize, form: Form)
    requires { at + length (number_bytes form) ≤ length buffer.old }
    ensures { buffer.new ≡ puts buffer.old at (number_bytes form) }
{
    match form {
        Form::Plain => {}
        Form::Numbered(n) => put_word(buffer, at, n),
    }
}
