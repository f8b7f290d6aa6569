// The table of what was counted.
use crate::tally;
use cases::report::{answers, rows};
use cases::tally::Tally;
use std::io;

fn calls(rt: &impl Print, t: Tally) -> io::Result<()> {
    println!(rt; "Calls compared with the judge of the whole run")?;
    rows(
        rt,
        t,
        tally::JUDGE_LOG,
        b"judge_log\n\
        lift_judge\n\
        lift_watch\n\
        lift_watch, a byte too little room\n\
        lift_panel\n\
        lift_panel, a tick is owed\n\
        lift_panel, a tick is owed, all lines counted\n\
        lift_sheet_number\n\
        lift_instant_number\n",
    )
}

// A row for each number; 11 and 16 are beyond these logs.
fn numbers(rt: &impl Print, t: Tally) -> io::Result<()> {
    println!(rt;
        "Refusals of lift_judge, lift_sheet_number and lift_instant_number, and of a buffer too short"
    )?;
    rows(
        rt,
        t,
        tally::NUMBERS + 1,
        b"1\n2\n3\n4\n5\n6\n7\n8\n9\n10\n11\n12\n13\n14\n15\n16\n17\n18\n19\n",
    )
}

pub fn table(rt: &impl Print, t: Tally) -> io::Result<()> {
    println!(rt;
        "Cases, each with a whole log of plain and numbered instants, a beginning of it, a damaged log, one with a wrong number and a damaged sheet"
    )?;
    rows(
        rt,
        t,
        tally::NARROW,
        b"of at most four clocks\nof five to eight clocks\nwith a counted line\n",
    )?;
    calls(rt, t)?;
    println!(rt; "Answers of lift_judge")?;
    answers(rt, t, tally::ANSWERS)?;
    println!(rt; "Answers of lift_judge, all lines counted")?;
    answers(rt, t, tally::COUNTED_ANSWERS)?;
    numbers(rt, t)?;
    println!(rt; "Differences")?;
    rows(
        rt,
        t,
        tally::DIFFERENT,
        b"calls unlike the judge of the whole run\n",
    )
}
