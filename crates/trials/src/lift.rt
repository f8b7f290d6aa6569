// Document 01's lift examples L2 to L11, some at the limits, some of counted lines, and some at the end of the scale; a row each, with the answers of opening and of every instant.
use crate::text::answer;
use crate::trial::{opened, taken};
use cases::course::{idle_instant, with_clock};
use cases::plan::{
    ZERO, byte, counts, delayed, empty_sheet, pair, relation, sporadic, tag_above, with,
};
use cases::tally::Tally;
use records::instant::{Instant, Tick};
use records::line::Line;
use records::sheet::Sheet;
use std::io;

// The tag 32,640, counted from the least tag: the end of the scale is 127 above.
const NEAR_END: u64 = 65408;

// A tick byte.
fn tick_of(x: u8) -> Tick {
    match x {
        0 => Tick::Idle,
        1 => Tick::Ticks,
        _ => Tick::Unseen,
    }
}

// A tag of one byte, in two's complement, around a middle: a sum, and no conversion.
fn tag_by(middle: u64, x: u8) -> i16 {
    let above = (u64::from(x) + 128) % 256;
    tag_above(middle % 65536 + 65408 + above)
}

// The instant of four bytes: tick and tag of clock 0, then of clock 1.
fn instant_of(bytes: &[u8], middle: u64) -> Instant {
    match bytes {
        [tick, tag, other_tick, other_tag] => {
            let v = with_clock(idle_instant(), 0, tick_of(*tick), tag_by(middle, *tag));
            with_clock(v, 1, tick_of(*other_tick), tag_by(middle, *other_tag))
        }
        _ => idle_instant(),
    }
}

// A sheet and its instants, four bytes each, with tags around a middle.
fn example_by(
    rt: &impl Print,
    name: &str,
    s: Sheet,
    middle: u64,
    log: &[u8],
    tally: Tally,
) -> io::Result<Tally> {
    let mut t = opened(s, 0, tally);
    print!(rt; "  {name}: ")?;
    answer(rt, t.answer)?;
    for bytes in log.chunks_exact(4) {
        t = taken(t, instant_of(bytes, middle));
        print!(rt; ", ")?;
        answer(rt, t.answer)?;
    }
    println!(rt)?;
    Ok(t.tally)
}

// With tags around 0.
fn example(rt: &impl Print, name: &str, s: Sheet, log: &[u8], t: Tally) -> io::Result<Tally> {
    example_by(rt, name, s, ZERO, log, t)
}

// With tags up to the end of the scale.
fn near_end(rt: &impl Print, name: &str, s: Sheet, log: &[u8], t: Tally) -> io::Result<Tally> {
    example_by(rt, name, s, NEAR_END, log, t)
}

// An example of two clocks and one line.
fn of_line(rt: &impl Print, name: &str, line: Line, log: &[u8], t: Tally) -> io::Result<Tally> {
    example(rt, name, with(empty_sheet(2), line), log, t)
}

// Nine instants where 0 has a tick byte, its tags rising by one from the first.
fn nine(tick: u8, first: u8) -> [u8; 36] {
    let mut log = [0; 36];
    for i in 0..9 {
        log[4 * i] = tick;
        // (a u64 has no `From` of a usize)
        log[4 * i + 1] = byte(u64::from(first) + i as u64);
    }
    log
}

// A sheet and ticks of 0 at tags 1 to 8, then one at a tag, where 1 has a tick byte.
fn ninth(rt: &impl Print, name: &str, s: Sheet, tag: u8, other: u8, t: Tally) -> io::Result<Tally> {
    let mut log = nine(1, 1);
    log[33] = tag;
    log[34] = other;
    example(rt, name, s, &log, t)
}

// 0 delayed by d on 0 implies 1.
fn later(d: u64) -> Sheet {
    with(empty_sheet(2), delayed(0, d, 0, 1))
}

fn l2_l3(rt: &impl Print, t: Tally) -> io::Result<Tally> {
    let t = of_line(rt, "L2 sporadic", sporadic(0, 1, ZERO), b"", t)?;
    let t = of_line(
        rt,
        "L3 0 excludes 0, a tick",
        pair(19, 0, 0),
        b"\x01\x00\x00\x00",
        t,
    )?;
    of_line(
        rt,
        "L3 0 implies 0, unseen",
        pair(18, 0, 0),
        b"\x02\x00\x00\x00",
        t,
    )
}

fn l4_l5(rt: &impl Print, t: Tally) -> io::Result<Tally> {
    let both = b"\x01\x00\x01\x00";
    let kills = pair(23, 0, 1);
    let t = of_line(rt, "L4 weakly, both tick", pair(21, 0, 1), both, t)?;
    let t = of_line(rt, "L4 strictly, both tick", pair(22, 0, 1), both, t)?;
    let t = of_line(rt, "L5 0 kills 1, both tick", kills, both, t)?;
    of_line(rt, "L5 0 kills 1, 1 unseen", kills, b"\x01\x00\x02\x00", t)
}

fn l6_l7(rt: &impl Print, t: Tally) -> io::Result<Tally> {
    let times_60 = relation(0, 1, 60, 0);
    let due = sporadic(0, 1, ZERO - 1);
    let t = of_line(rt, "L6 -60 = 60 x -1", times_60, b"\x00\xC4\x00\xFF", t)?;
    let t = of_line(rt, "L6 -59 = 60 x -1", times_60, b"\x00\xC5\x00\xFF", t)?;
    let t = of_line(
        rt,
        "L7 idle at -1, a tick at -1",
        due,
        b"\x00\x00\x00\xFF\x01\x00\x00\xFF",
        t,
    )?;
    of_line(
        rt,
        "L7 idle at -1, a tick at 0",
        due,
        b"\x00\x00\x00\xFF\x01\x00\x00\x00",
        t,
    )
}

fn l8_l11(rt: &impl Print, t: Tally) -> io::Result<Tally> {
    let by_100 = later(100);
    let t = example(rt, "L8 d = 0, both tick", later(0), b"\x01\x00\x01\x00", t)?;
    let t = ninth(rt, "L9 ticks at 1 to 9", by_100, 9, 0, t)?;
    let t = example(
        rt,
        "L10 unseen at 1 to 6",
        by_100,
        b"\x02\x01\x00\x00\x02\x02\x00\x00\x02\x03\x00\x00\x02\x04\x00\x00\x02\x05\x00\x00\x02\x06\x00\x00",
        t,
    )?;
    example(
        rt,
        "L11 the listing",
        later(2),
        b"\x01\xFD\x00\x00\x02\xFE\x00\x00\x00\xFF\x01\x00\x00\x01\x00\x00\x00\x00\x00\x00",
        t,
    )
}

// 31: a tick of 1 has one of 0 before it. 33: 1 may tick where 0 never did.
fn lives(rt: &impl Print, t: Tally) -> io::Result<Tally> {
    let by_100 = later(100);
    let weakly = with(by_100, pair(21, 0, 1));
    let kills = with(with(by_100, delayed(1, 100, 0, 0)), pair(23, 0, 1));
    let t = example(
        rt,
        "live 31, then 62",
        weakly,
        b"\x02\x01\x00\x00\x02\x02\x00\x00\x02\x03\x00\x00\x02\x04\x00\x00\x02\x05\x00\x00\x00\x06\x01\x00\x02\x07\x00\x00",
        t,
    )?;
    example(
        rt,
        "live 32, then 33",
        kills,
        b"\x02\x01\x00\x00\x02\x02\x00\x00\x02\x03\x00\x00\x02\x04\x00\x00\x02\x05\x00\x00\x00\x06\x02\x00",
        t,
    )
}

// A ninth obligation begins where one of eight is met, or is late.
fn ninths(rt: &impl Print, t: Tally) -> io::Result<Tally> {
    let by_8 = later(8);
    let t = ninth(rt, "a ninth, one met", by_8, 9, 1, t)?;
    ninth(rt, "a ninth, one late", by_8, 10, 0, t)
}

// A count met by its own instant's ticks would be clear; one that an unseen tick may have brought down has two remainders.
fn counted(rt: &impl Print, t: Tally) -> io::Result<Tally> {
    let t = of_line(
        rt,
        "a count of 1, both tick",
        counts(0, 1, 0, 1),
        b"\x01\x00\x01\x00",
        t,
    )?;
    let t = of_line(
        rt,
        "a count of 2 on 1 for 1",
        counts(0, 2, 1, 1),
        b"\x01\x00\x01\x00\x00\x00\x01\x00\x00\x00\x01\x00",
        t,
    )?;
    of_line(
        rt,
        "a count of 2 on 1 for 0, 1 unseen once",
        counts(0, 2, 1, 0),
        b"\x01\x00\x00\x00\x00\x00\x02\x00\x00\x00\x01\x00\x00\x00\x01\x00",
        t,
    )
}

// Eight obligations and eight countdowns; then a ninth countdown, with an equal obligation; a ninth obligation, a countdown met; neither; a ninth obligation, a countdown missed.
fn both(rt: &impl Print, t: Tally) -> io::Result<Tally> {
    let far = counts(0, 255, 0, 1);
    let near = with(later(100), counts(0, 8, 0, 1));
    let t = ninth(rt, "nine countdowns", with(empty_sheet(2), far), 9, 0, t)?;
    let t = ninth(
        rt,
        "eight and eight, a ninth countdown",
        with(later(100), far),
        8,
        0,
        t,
    )?;
    let t = ninth(rt, "eight and eight, a ninth obligation", near, 9, 1, t)?;
    let t = ninth(rt, "eight and eight, and again", near, 8, 1, t)?;
    ninth(
        rt,
        "eight and eight, a ninth obligation, a countdown missed",
        near,
        9,
        0,
        t,
    )
}

// A delay that is due at the end begins an obligation; one that would be due past it begins none.
fn scale_end(rt: &impl Print, t: Tally) -> io::Result<Tally> {
    let t = near_end(
        rt,
        "begun at 32,767, d = 0, met there",
        later(0),
        b"\x01\x7F\x00\x00\x00\x7F\x01\x00",
        t,
    )?;
    let t = near_end(
        rt,
        "begun at 32,767, d = 1",
        later(1),
        b"\x01\x7F\x00\x00",
        t,
    )?;
    near_end(
        rt,
        "a long lift, d = 100: a tick, its reading, a tick at 32,700",
        later(100),
        b"\x01\xD8\x00\x00\x00\x3C\x01\x00\x01\x3C\x00\x00",
        t,
    )
}

// Nine tags up to the end: with d = 8 the first is due there.
fn nine_at_end(rt: &impl Print, t: Tally) -> io::Result<Tally> {
    let ticks = nine(1, 119);
    let unseen = nine(2, 119);
    let t = near_end(rt, "nine begun past the end", later(100), &ticks, t)?;
    let t = near_end(rt, "nine unseen past the end", later(100), &unseen, t)?;
    near_end(rt, "one of nine due at the end", later(8), &ticks, t)
}

pub fn all(rt: &impl Print, t: Tally) -> io::Result<Tally> {
    println!(rt; "Lift examples, some at the limits, counted lines, and the end of the scale")?;
    let t = l2_l3(rt, t)?;
    let t = l4_l5(rt, t)?;
    let t = l6_l7(rt, t)?;
    let t = l8_l11(rt, t)?;
    let t = lives(rt, t)?;
    let t = ninths(rt, t)?;
    let t = counted(rt, t)?;
    let t = both(rt, t)?;
    let t = scale_end(rt, t)?;
    nine_at_end(rt, t)
}
