// The rows held, filling by filling of an instant.
ghost use Rattle.work.specs.Fillings.{fillings_in};
ghost use Rattle.step.specs.Apply.{ApplyingAll, AppliedAll};

use crate::apply::apply_filling;
use crate::filling::gather;
use crate::list::{LIST, flags_at};
use lines::plan::{NUMBERS, Plan};
use remainders::rows::{SIDES, SIZE};

// What is the same for every filling of an instant.
#[derive(Clone, Copy)]
pub(crate) struct Conditions {
    // The instant's tags.
    pub(crate) tags: [i16; 8],
    // How many distinct remainders there is room for.
    pub(crate) room: usize,
}

// What n rows from row `from` on become by m listed fillings.
pub(crate) fn apply_all(
    rows: &mut [u32; SIZE],
    from: usize,
    n: usize,
    plan: Plan,
    lines: &[u32; NUMBERS],
    conditions: Conditions,
    m: usize,
    list: &[bool; LIST],
) -> Option<usize>
    requires { ApplyingAll rows.old from n conditions.room m }
    ensures { AppliedAll lines.now plan conditions (fillings_in list.now m) from n result rows.old rows.new }
{
    let mut live = 0;
    for i in 0..m {
        let f = gather(lines, plan, flags_at(list, i), conditions.tags);
        live = apply_filling(rows, from, SIDES - from, n, live, conditions.room, plan, f)?;
    }
    Some(live)
}
