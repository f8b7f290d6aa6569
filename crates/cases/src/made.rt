// The plan of a case, by its number.
ghost use Rattle.std.specs.Prelude.{◌≤◌};

use crate::plan::Plan;
use crate::random::below;
use crate::{counting, families, generic, wide};
use records::sort::sorted_sheet;

// A case of a family of at most four clocks, by the family's place.
fn few_clocks(family: u64, d: [u64; 48]) -> Plan {
    match family {
        0 => families::sets(d),
        1 => families::leads(d),
        2 => families::owed(d),
        3 => families::on_clocks(d),
        4 => families::ends(d),
        5 => families::products(d),
        6 => counting::few(d),
        _ => counting::many(d),
    }
}

// The family of a narrow case, for the first 28 of 56 numbers.
fn family_of(n: u64) -> u64 {
    match n {
        0..=3 => 0,
        4 => 1,
        5..=9 => 2,
        10..=13 => 3,
        14..=17 => 4,
        18..=21 => 5,
        22..=24 => 6,
        _ => 7,
    }
}

// At most four clocks; half are of every kind of line.
fn narrow(number: u64, d: [u64; 48]) -> Plan {
    let n = number % 56;
    if n < 28 {
        few_clocks(family_of(n), d)
    } else {
        generic::plan(d, below(d, 0, 4) + 1, below(d, 3, 8))
    }
}

// A family, and by how many places its clocks are moved up: at least, and of how many.
#[derive(Clone, Copy)]
struct Move(u64, u64, u64);

// The move of a wide case, for 12 of 28 numbers.
fn move_of(n: u64) -> Move {
    match n {
        0 => Move(0, 5, 1),
        1 => Move(1, 4, 1),
        2..=3 => Move(2, 3, 3),
        4..=5 => Move(3, 1, 4),
        6..=7 => Move(4, 2, 4),
        12..=13 => Move(6, 2, 4),
        _ => Move(7, 2, 4),
    }
}

// Five to eight clocks.
fn wide(number: u64, d: [u64; 48]) -> Plan {
    match number % 28 {
        8..=11 => wide::unseen(d),
        16..=27 => generic::plan(d, below(d, 0, 4) + 5, below(d, 3, 9)),
        n => {
            let m = move_of(n);
            let up = m.1 % 8 + below(d, 40, m.2 % 8);
            wide::moved(few_clocks(m.0, d), up, d)
        }
    }
}

// A plan with its sheet's lines in rising order, repeats dropped; a sheet outside its limits stays as it is.
fn sorted(mut plan: Plan) -> Plan {
    if let Ok(sheet) = sorted_sheet(plan.sheet) {
        plan.sheet = sheet;
    }
    plan
}

// A case of five to eight clocks, or of at most four.
pub fn plan_of(is_wide: bool, number: u64, d: [u64; 48]) -> Plan {
    if is_wide {
        sorted(wide(number, d))
    } else {
        sorted(narrow(number, d))
    }
}

// How many instants, at most 16.
pub fn instants_of(plan: Plan) -> u64
    ensures { result ≤ 16 }
{
    plan.instants.min(16)
}
