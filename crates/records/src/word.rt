// Fields of two bytes, little-endian, and two's complement.
ghost use Rattle.std.specs.Prelude.{◌≡◌, ◌+◌, ◌<◌, ◌/◌, ◌%◌, length};
ghost use Rattle.records.specs.Word.{word_at, word_bytes, tag_of, raw_of};
ghost use Rattle.records.specs.Store.{puts};

// How many values a word has.
const WORD_VALUES: u64 = 65536;

// The word of the bytes at i and i + 1, low byte first.
pub(crate) fn word_at(b: &[u8], i: usize) -> u16
    requires { i + 1 < length b.now }
    ensures { result ≡ word_at b.now i }
{
    u16::from_le_bytes([b[i], b[i + 1]])
}

// The tag of a raw word, in two's complement, by arithmetic and no branch: first as a number counted from the least tag.
pub fn tag_of(raw: u16) -> i16
    ensures { result ≡ tag_of raw }
{
    let from_least = (u64::from(raw) + 32768) % WORD_VALUES;
    ((from_least as i64) - 32768) as i16
}

// The raw word of a tag; by hand, as the edit raw_of_minus_one has it.
pub fn raw_of(tag: i16) -> u16
    ensures { result ≡ raw_of tag }
{
    if tag < 0 {
        65535 - ((-1 - tag) as u16)
    } else {
        tag as u16
    }
}

// A word's two bytes, low byte first, where they have room.
pub(crate) fn put_word(buffer: &mut [u8], at: usize, w: u16)
    requires { at + 1 < length buffer.old }
    ensures { buffer.new ≡ puts buffer.old at (word_bytes w) }
{
    let [low, high] = w.to_le_bytes();
    buffer[at] = low;
    buffer[at + 1] = high;
}
