// Byte strings: cut, and put together from a table's text.
// There a byte is two hexadecimal digits. A comma ends a piece, as a record of a sheet. A piece with n* behind it stands there n times, with n+ too, its last byte one more each time; n is two digits.

// How many bytes a tape has room for.
const LENGTH: usize = 192;

// The first n bytes, or all where there are fewer.
pub fn front(bytes: &[u8], n: usize) -> &[u8] {
    &bytes[..n.min(bytes.len())]
}

// The bytes from n on, none where there are fewer.
pub fn behind(bytes: &[u8], n: usize) -> &[u8] {
    &bytes[n.min(bytes.len())..]
}

// The byte at a place, 0 where there is none.
pub fn byte_at(bytes: &[u8], at: usize) -> u8 {
    bytes.get(at).copied().unwrap_or(0)
}

// A byte string that is being put together. There is no heap, so it is an array and a length.
#[derive(Clone, Copy)]
pub struct Tape {
    // Its bytes, 0 behind them.
    bytes: [u8; LENGTH],
    // How many they are.
    len: usize,
    // Where its last piece begins.
    piece: usize,
    // The first digit of a byte whose second is to come.
    digit: Option<u8>,
}

impl Tape {
    // No bytes yet.
    pub fn empty() -> Tape {
        Tape {
            bytes: [0; LENGTH],
            len: 0,
            piece: 0,
            digit: None,
        }
    }

    // The bytes put so far.
    pub fn told(&self) -> &[u8] {
        front(&self.bytes, self.len)
    }

    // Puts more bytes behind it; what finds no room is left out.
    pub fn put(&mut self, more: &[u8]) {
        if let Some(room) = self
            .bytes
            .get_mut(self.len..self.len.saturating_add(more.len()))
        {
            room.copy_from_slice(more);
            self.len += more.len();
        }
    }

    // Puts a digit: the first of a byte, or the second.
    fn put_digit(&mut self, digit: u8) {
        match self.digit.take() {
            None => self.digit = Some(digit),
            Some(first) => self.put(&[first % 16 * 16 + digit % 16]),
        }
    }

    // Puts a piece, so much added to its last byte.
    fn put_raised(&mut self, piece: &[u8], by: u8) {
        self.put(piece);
        let last = self.len.wrapping_sub(1);
        if last < LENGTH {
            self.bytes[last] = self.bytes[last].wrapping_add(by);
        }
    }

    // Its last byte is a number of times: its last piece so often, each time so much more added to the last byte.
    fn repeat(&mut self, by: u8) {
        let before = *self;
        let last = before.len.wrapping_sub(1);
        let piece = behind(front(&before.bytes, last), before.piece);
        self.len = before.piece;
        for i in 0..byte_at(&before.bytes, last) {
            self.put_raised(piece, i.wrapping_mul(by));
        }
    }

    // Puts what a character of the text says; a space says nothing.
    fn put_character(&mut self, c: u8) {
        match c {
            b'0'..=b'9' => self.put_digit(c - b'0'),
            b'A'..=b'F' => self.put_digit(c - b'A' + 10),
            b',' => self.piece = self.len,
            b'*' => self.repeat(0),
            b'+' => self.repeat(1),
            _ => {}
        }
    }
}

// The bytes that a text tells.
pub fn tape_of(text: &str) -> Tape {
    let mut t = Tape::empty();
    for c in text.bytes() {
        t.put_character(c);
    }
    t
}
