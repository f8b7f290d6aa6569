// Words of 32 bits: what is stored in one and read back. Every word reads as something. A cast with `as` stands where there is no `From`, and loses nothing, or only what is to be cut off.
ghost use Rattle.std.specs.Prelude.{◌≡◌, ◌≤◌};
ghost use Rattle.remainders.specs.Word.{byte_in, next_byte_in, number_in, upper_in, flag_of, flag_word};

// How many values a byte has, and half a word.
const BYTE: u32 = 256;

const HALF: u32 = 65536;

pub fn count_in(w: u32) -> usize
    ensures { result ≡ w }
{
    w as usize
}

pub fn count_word(n: usize) -> u32
    requires { n ≤ 8 }
    ensures { result ≡ n }
{
    n as u32
}

pub fn byte_in(w: u32) -> u8
    ensures { result ≡ byte_in w }
{
    (w % BYTE) as u8
}

// The byte beside it.
pub(crate) fn next_byte_in(w: u32) -> u8
    ensures { result ≡ next_byte_in w }
{
    (w / BYTE % BYTE) as u8
}

// The upper half.
pub(crate) fn upper_in(w: u32) -> u16
    ensures { result ≡ upper_in w }
{
    (w / HALF) as u16
}

// Two bytes, and a number in the upper half.
pub(crate) fn packed_word(x: u8, y: u8, upper: u16) -> u32
    ensures { (byte_in result ≡ x) × ((next_byte_in result ≡ y) × (upper_in result ≡ upper)) }
{
    u32::from(x) + BYTE * u32::from(y) + HALF * u32::from(upper)
}

pub fn number_in(w: u32) -> u16
    ensures { result ≡ number_in w }
{
    (w % HALF) as u16
}

pub fn lead_word(x: u16) -> u32
    ensures { result ≡ x }
{
    u32::from(x)
}

pub fn flag_in(w: u32) -> bool
    ensures { result ≡ flag_of w }
{
    w % 2 == 1
}

pub fn flag_word(b: bool) -> u32
    ensures { result ≡ flag_word b }
{
    u32::from(b)
}
