// A text, built from its front.
ghost use Rattle.std.specs.Prelude.{◌≡◌, ◌∷◌, [], ◌≤◌, ◌<◌, length};
ghost use Rattle.text.specs.Text.{digit, decimal, cents, hundredths};
ghost use Rattle.text.specs.Built.{Room, Adds};

// A line of text: its first `len` bytes. Those behind them are no part of it. There is no heap, so it is an array and a length.
#[derive(Clone, Copy)]
pub struct Text {
    pub len: usize,
    pub bytes: [u8; 64],
}

pub(crate) fn blank() -> Text
    ensures { result.len ≡ 0 }
{
    Text {
        len: 0,
        bytes: [0; 64],
    }
}

fn push(mut t: Text, byte: u8) -> Text
    requires { Room t (byte ∷ []) }
    ensures { Adds t (byte ∷ []) result }
{
    t.bytes[t.len] = byte;
    t.len += 1;
    t
}

// Bytes one after the other.
pub(crate) fn push_word(t: Text, word: &[u8]) -> Text
    requires { Room t word.now }
    ensures { Adds t word.now result }
{
    let mut next = t;
    for byte in word {
        next = push(next, *byte);
    }
    next
}

// The ASCII code of a number below 10, so nothing is lost by the cast.
fn digit_of(d: usize) -> u8
    requires { d < 10 }
    ensures { result ≡ digit d }
{
    b'0' + d as u8
}

// The digits before the last one, and the last; by hand, as the contract names each byte and a text has no heap.
fn push_digits(t: Text, n: usize) -> Text
    requires { Room t (decimal n) }
    ensures { Adds t (decimal n) result }
{
    if n < 10 {
        return push(t, digit_of(n));
    }
    let front = push_digits(t, n / 10);
    push(front, digit_of(n % 10))
}

// A number of 64 bits has at most 20 digits.
pub(crate) fn push_decimal(t: Text, n: usize) -> Text
    requires { t.len ≤ 44 }
    ensures { (length (decimal n) ≤ 20) × Adds t (decimal n) result }
{
    push_digits(t, n)
}

// A number of hundredths.
fn push_cents(t: Text, n: usize) -> Text
    requires { t.len ≤ 41 }
    ensures { (length (cents n) ≤ 23) × Adds t (cents n) result }
{
    let whole = push_decimal(t, n / 100);
    let point = push_word(whole, b".");
    let tenths = push(point, digit_of(n / 10 % 10));
    push(tenths, digit_of(n % 10))
}

// A tag's count of hundredths, with its sign.
pub(crate) fn push_hundredths(t: Text, tag: i16) -> Text
    requires { t.len ≤ 40 }
    ensures { (length (hundredths tag) ≤ 24) × Adds t (hundredths tag) result }
{
    let count = usize::from(tag.unsigned_abs());
    if tag < 0 {
        let minus = push_word(t, b"-");
        return push_cents(minus, count);
    }
    push_cents(t, count)
}
