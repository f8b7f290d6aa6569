// An instant: the form of its record, and for each clock a tick and a tag. A clock count is anybody's byte; what follows the test of it asks for at most 8.
ghost use Rattle.std.specs.Prelude.{◌≡◌, [], ◌+◌, ◌*◌, ◌≤◌, ◌<◌, length, set};
ghost use Rattle.records.specs.Outcome.{outcome_of};
ghost use Rattle.records.specs.Store.{puts, wrote};
ghost use Rattle.records.specs.Instant.{tick_byte, cell_bytes, cells_bytes, instant_of, instant_read, instant_value, read_instant, instant_bytes, write_instant};
ghost use Rattle.records.specs.Inner.{TickRead, with_cell, cells_read, body_read};

use crate::form::{
    Form, form_kind, form_length, form_of, is_instant_kind, number_length, put_number,
};
use crate::number;
use crate::record::{put_head, record_at};
use crate::refusal::Refusal;
use crate::sheet::clock_count;
use crate::word::{put_word, raw_of, tag_of, word_at};

#[derive(Clone, Copy, Debug, PartialEq, Eq)]
pub enum Tick {
    Idle,
    Ticks,
    Unseen,
}

// A tick byte, or 15.
impl TryFrom<u8> for Tick {
    type Error = Refusal;

    ghost try_from_gives = { TickRead };

    fn try_from(byte: u8) -> Result<Tick, Refusal> {
        match byte {
            0 => Ok(Tick::Idle),
            1 => Ok(Tick::Ticks),
            2 => Ok(Tick::Unseen),
            _ => Err(Refusal::TickByte),
        }
    }
}

// A tick's byte.
impl From<Tick> for u8 {
    ghost from_gives = { λ tick byte. byte ≡ tick_byte tick };

    fn from(tick: Tick) -> u8 {
        match tick {
            Tick::Idle => 0,
            Tick::Ticks => 1,
            Tick::Unseen => 2,
        }
    }
}

// Ticks and tags are two arrays, so that the eight tags travel as one value.
#[derive(Clone, Copy)]
pub struct Instant {
    // How its record is written; what is judged are the ticks and tags.
    pub form: Form,
    // The ticks of the clocks; those from the clock count on are unused, and idle where an instant was read.
    pub ticks: [Tick; 8],
    // Their tags; those unused are 0 where an instant was read.
    pub tags: [i16; 8],
}

// An instant of a form before its clocks are read.
fn blank_instant(form: Form) -> Instant
    ensures { result ≡ instant_of (record { form = form; cells = [] }) }
{
    Instant {
        form,
        ticks: [Tick::Idle; 8],
        tags: [0; 8],
    }
}

// The eight tags as one value, with one of them set.
fn with_tag(mut tags: [i16; 8], i: usize, tag: i16) -> [i16; 8]
    requires { i < 8 }
    ensures { result ≡ set tags i tag }
{
    tags[i] = tag;
    tags
}

// An instant with the tick and the tag of one clock set.
fn with_cell(mut v: Instant, i: usize, t: Tick, tag: i16) -> Instant
    requires { i < 8 }
    ensures { result ≡ with_cell v i t tag }
{
    v.ticks[i] = t;
    v.tags = with_tag(v.tags, i, tag);
    v
}

// The clocks of an instant of a form, three bytes each: 15, or the instant.
fn read_cells(form: Form, body: &[u8], clocks: u8) -> Result<Instant, Refusal>
    requires { (clocks ≤ 8) × (length body.now ≡ 3 * clocks) }
    ensures { outcome_of result ≡ instant_read (cells_read form body.now) }
{
    let mut v = blank_instant(form);
    for i in 0..usize::from(clocks) {
        let at = number::CELL_LENGTH * i;
        let tick = Tick::try_from(body[at])?;
        let tag = tag_of(word_at(body, at + 1));
        v = with_cell(v, i, tick, tag);
    }
    Ok(v)
}

// The instant of a record of a kind: 13, 14, 15, or the instant.
fn read_body(kind: u16, body: &[u8], clocks: u8) -> Result<Instant, Refusal>
    requires { clocks ≤ 8 }
    ensures { outcome_of result ≡ instant_read (body_read clocks kind body.now) }
{
    if !is_instant_kind(kind) {
        return Err(Refusal::NotInstant);
    }
    let before = number_length(kind);
    if body.len() != number::CELL_LENGTH * usize::from(clocks) + before {
        return Err(Refusal::InstantLength);
    }
    let form = form_of(kind, body);
    read_cells(form, &body[before..], clocks)
}

// The instant of a clock count that a byte string holds.
pub fn read_instant(bytes: &[u8], clocks: u8) -> Result<Instant, Refusal>
    ensures { outcome_of result ≡ instant_read (read_instant clocks bytes.now) }
{
    if !clock_count(clocks) {
        return Err(Refusal::ClockCount);
    }
    let Some(record) = record_at(bytes, 0) else {
        return Err(Refusal::NotOneRecord);
    };
    if bytes.len() != number::HEAD_LENGTH + record.len {
        return Err(Refusal::NotOneRecord);
    }
    read_body(record.kind, &bytes[number::HEAD_LENGTH..], clocks)
}

// A tick byte and a tag's word, where they have room.
fn put_cell(buffer: &mut [u8], at: usize, t: Tick, tag: i16)
    requires { at + 2 < length buffer.old }
    ensures { buffer.new ≡ puts buffer.old at (cell_bytes (record { tick = t; tag = tag })) }
{
    buffer[at] = u8::from(t);
    put_word(buffer, at + 1, raw_of(tag));
}

// The clocks of an instant, one behind the other, where they have room.
fn put_cells(v: Instant, clocks: u8, buffer: &mut [u8], at: usize)
    requires { (clocks ≤ 8) × (at + 3 * clocks ≤ length buffer.old) }
    ensures { buffer.new ≡ puts buffer.old at (cells_bytes (instant_value clocks v).cells) }
{
    for i in 0..usize::from(clocks) {
        put_cell(buffer, at + number::CELL_LENGTH * i, v.ticks[i], v.tags[i]);
    }
}

// An instant's record, where it has room.
fn put_instant(v: Instant, clocks: u8, buffer: &mut [u8])
    requires { (clocks ≤ 8) × (length (instant_bytes (instant_value clocks v)) ≤ length buffer.old) }
    ensures { buffer.new ≡ puts buffer.old 0 (instant_bytes (instant_value clocks v)) }
{
    let form = v.form;
    let before = form_length(form);
    let len = before + number::CELL_LENGTH * usize::from(clocks);
    put_head(buffer, 0, len as u16, form_kind(form));
    put_number(buffer, number::HEAD_LENGTH, form);
    put_cells(v, clocks, buffer, number::HEAD_LENGTH + before);
}

// Writes an instant of a clock count at the buffer's front, or refuses it and changes no byte.
pub fn write_instant(instant: Instant, clocks: u8, buffer: &mut [u8]) -> Result<usize, Refusal>
    ensures { wrote result buffer.new ≡ write_instant clocks (instant_value clocks instant) buffer.old }
{
    if !clock_count(clocks) {
        return Err(Refusal::ClockCount);
    }
    let form = instant.form;
    let size = number::HEAD_LENGTH + form_length(form) + number::CELL_LENGTH * usize::from(clocks);
    if buffer.len() < size {
        return Err(Refusal::ShortBuffer);
    }
    put_instant(instant, clocks, buffer);
    Ok(size)
}
