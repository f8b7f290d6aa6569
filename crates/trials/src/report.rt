// The tables of what was counted.
use crate::tally;
use cases::report::{self, rows};
use cases::tally::Tally;
use std::io;

fn kinds(rt: &impl Print, t: Tally) -> io::Result<()> {
    rows(
        rt,
        t,
        tally::SPORADIC,
        b"sporadic\n\
        relation\n\
        implies\n\
        excludes\n\
        delayed\n\
        weakly precedes\n\
        strictly precedes\n\
        kills\n\
        counted\n",
    )
}

fn answers(rt: &impl Print, t: Tally) -> io::Result<()> {
    report::answers(rt, t, tally::ANSWERS)?;
    rows(rt, t, tally::REFUSED, b"refused, as due\n")
}

fn refusals(rt: &impl Print, t: Tally) -> io::Result<()> {
    rows(
        rt,
        t,
        tally::BY_NUMBER,
        b"numbers that are not the next, due 19\n\
        sheets out of order, refused by 9\n\
        sheets out of order, refused by 17\n",
    )
}

fn instants(rt: &impl Print, t: Tally) -> io::Result<()> {
    rows(
        rt,
        t,
        tally::NUMBERED,
        b"numbered instants\n\
        instants with the on-clock of a countdown unseen\n\
        delays, seen or unseen, due at the end of the scale\n\
        delays, seen or unseen, due past it\n",
    )
}

fn lives(rt: &impl Print, t: Tally) -> io::Result<()> {
    rows(
        rt,
        t,
        tally::LIVE_31,
        b"live 31\n\
        live 32\n\
        first remainder with eight obligations\n\
        first remainder with eight countdowns\n\
        first remainder with eight of each\n",
    )
}

// The ninth's sort is told by the sheet, where it has lines of one sort alone.
fn ends(rt: &impl Print, t: Tally) -> io::Result<()> {
    rows(
        rt,
        t,
        tally::BY_OWED,
        b"exhausted after live 1\n\
        exhausted after live 1, no line counted: nine obligations\n\
        exhausted after live 1, all lines counted: nine countdowns\n\
        exhausted after live 17 to 32\n",
    )
}

fn others(rt: &impl Print, t: Tally) -> io::Result<()> {
    rows(
        rt,
        t,
        tally::REVERSED,
        b"replies with the lines reversed\n\
        replies with a line repeated\n\
        sheets in any order, refused by 5 for a counted line\n\
        sheets in any order, refused by 9 for the repeat\n",
    )
}

fn unlike_sorted(rt: &impl Print, t: Tally) -> io::Result<()> {
    rows(
        rt,
        t,
        tally::UNLIKE_SORTED,
        b"replies unlike the sorted sheet's\n",
    )
}

fn cases(rt: &impl Print, t: Tally) -> io::Result<()> {
    rows(rt, t, tally::CASES, b"cases\n")
}

fn differences(rt: &impl Print, t: Tally) -> io::Result<()> {
    rows(
        rt,
        t,
        tally::DIFFERENT,
        b"answers unlike the judge's of the whole run\n",
    )
}

pub fn table(rt: &impl Print, t: Tally) -> io::Result<()> {
    println!(rt; "Lines of the made sheets")?;
    kinds(rt, t)?;
    println!(rt; "Answers to opening and observing")?;
    answers(rt, t)?;
    refusals(rt, t)?;
    println!(rt; "Instants of the made cases")?;
    instants(rt, t)?;
    println!(rt; "Limits met")?;
    lives(rt, t)?;
    ends(rt, t)?;
    println!(rt; "The same sheet in another order")?;
    others(rt, t)?;
    unlike_sorted(rt, t)?;
    println!(rt; "Cases and differences")?;
    cases(rt, t)?;
    differences(rt, t)
}

// Of more than four clocks, exhausted after live 1 has either reason: it is left out.
pub fn wide_table(rt: &impl Print, t: Tally) -> io::Result<()> {
    println!(rt; "Wide sheets, five to eight clocks")?;
    cases(rt, t)?;
    rows(
        rt,
        t,
        tally::EIGHT,
        b"cases of eight clocks\n\
        instants with clock 4, 5, 6 or 7 unseen\n\
        instants with eight clocks unseen\n",
    )?;
    instants(rt, t)?;
    kinds(rt, t)?;
    answers(rt, t)?;
    refusals(rt, t)?;
    lives(rt, t)?;
    others(rt, t)?;
    unlike_sorted(rt, t)?;
    differences(rt, t)
}

// Records of one list, sent by a driver.
pub fn driver_table(rt: &impl Print, t: Tally) -> io::Result<()> {
    println!(rt;
        "Drivers that send numbered records of one list, and drop, repeat, reorder and resend them"
    )?;
    cases(rt, t)?;
    rows(
        rt,
        t,
        tally::NEXT_NUMBER,
        b"the next of the list\n\
        held already, due 19\n\
        too early, due 19\n\
        of no record of the list, due 19\n\
        lists held whole at the end\n\
        lists held in part\n",
    )?;
    answers(rt, t)?;
    unlike_sorted(rt, t)?;
    differences(rt, t)
}
