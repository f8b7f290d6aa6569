// Raw words and tags, both directions.
use records::word::{raw_of, tag_of};
use std::io;

fn raw_case(rt: &impl Print, raw: u16) -> io::Result<()> {
    let tag = tag_of(raw);
    let back = raw_of(tag);
    println!(rt; "  raw {raw}: tag {tag}, back to raw {back}")
}

fn tag_case(rt: &impl Print, tag: i16) -> io::Result<()> {
    let raw = raw_of(tag);
    let back = tag_of(raw);
    println!(rt; "  tag {tag}: raw {raw}, back to tag {back}")
}

// How many words are read as another tag than is due, or written back as another word; of all words in turn, the tags from 0 up, and after the greatest from the least up.
fn differences() -> usize {
    (0..=u16::MAX)
        .zip((0..=i16::MAX).chain(i16::MIN..=-1))
        .filter(|(raw, due)| tag_of(*raw) != *due || raw_of(*due) != *raw)
        .count()
}

pub fn all(rt: &impl Print) -> io::Result<()> {
    println!(rt; "Tags")?;
    for raw in [65533, 65535, 0, 1, 32767, 32768] {
        raw_case(rt, raw)?;
    }
    for tag in [-3, -1, 0, 1, 32767, -32768] {
        tag_case(rt, tag)?;
    }
    let found = differences();
    println!(rt; "  65536 words read and written back, differences: {found}")
}
