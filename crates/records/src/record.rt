// A record: length of the body, kind, body.
ghost use Rattle.std.specs.Prelude.{◌≡◌, ◌++◌, ◌+◌, ◌≤◌, length};
ghost use Rattle.records.specs.Word.{word_bytes};
ghost use Rattle.records.specs.Record.{record_at, record_span};
ghost use Rattle.records.specs.Store.{puts};

use crate::number;
use crate::word::{put_word, word_at};

// A whole record at a place of a byte string.
#[derive(Clone, Copy, Debug, PartialEq, Eq)]
pub struct Record {
    pub kind: u16,
    // The length of its body, which is all there.
    pub len: usize,
}

// The record at the front of some bytes; none where it is torn: fewer than 4 bytes remain, or fewer than its length after the 4.
fn first_record(b: &[u8]) -> Option<Record>
    ensures { result ≡ record_at b.now 0 }
{
    if b.len() < number::HEAD_LENGTH {
        return None;
    }
    let len = usize::from(word_at(b, 0));
    if b.len() - number::HEAD_LENGTH < len {
        return None;
    }
    Some(Record {
        kind: word_at(b, 2),
        len,
    })
}

// The record at a place of a byte string, for every place; none where it is torn.
pub fn record_at(bytes: &[u8], at: usize) -> Option<Record>
    ensures { result ≡ record_at bytes.now at }
{
    first_record(bytes.get(at..)?)
}

// The bytes of the record at a place of a byte string, for every place: length, kind and body;
// of a torn one what remains, which is refused when it is read. At the end and past it that is nothing.
pub fn record_bytes(bytes: &[u8], at: usize) -> &[u8]
    ensures { result.now ≡ record_span bytes.now at }
{
    if bytes.len() < at {
        return &[];
    }
    match record_at(bytes, at) {
        None => &bytes[at..],
        Some(record) => &bytes[at..at + number::HEAD_LENGTH + record.len],
    }
}

// A record's length and kind, where they have room.
pub(crate) fn put_head(buffer: &mut [u8], at: usize, len: u16, kind: u16)
    requires { at + 4 ≤ length buffer.old }
    ensures { buffer.new ≡ puts buffer.old at (word_bytes len ++ word_bytes kind) }
{
    put_word(buffer, at, len);
    put_word(buffer, at + 2, kind);
}
