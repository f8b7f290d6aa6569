// The fillings of an instant, and what the rows held become by them.
ghost use Rattle.std.specs.Prelude.{◌≡◌, true, ◌&&◌, ◌≤◌, ◌<◌, set};
ghost use Rattle.tesl.specs.Lists.{all};
ghost use Rattle.tesl.specs.Fits.{none_falls};
ghost use Rattle.tesl.specs.Answer.{most_live};
ghost use Rattle.work.specs.View.{tags_before};
ghost use Rattle.work.specs.Questions.{tags_hold};
ghost use Rattle.work.specs.Rules.{allowed};
ghost use Rattle.work.specs.Relevant.{fillings_left};
ghost use Rattle.lines.specs.Plan.{plan_lines, relations_from, rules_from};
ghost use Rattle.step.specs.Fill.{Listing, Listed, Working, Worked};

use crate::apply_all::{Conditions, apply_all};
use crate::list::{LIST, put_flags};
use lines::plan::{NUMBERS, Plan};
use lines::relevant::flag_rows;
use lines::rules::{all_hold, is_forbidden};
use lines::tags::{all_tags_hold, none_falls};
use records::instant::{Instant, Tick};
use remainders::rows::SIZE;

// What an instant meets. A flag beside the tags, not an Option: what `work_rows` ensures and `judge` name the two.
#[derive(Clone, Copy)]
pub struct Before {
    // No instant went before it.
    pub first: bool,
    // The last tags, where one did.
    pub tags: [i16; 8],
    // How many distinct remainders there is room for.
    pub room: usize,
}

// How far the recursion goes: small, so that a call is handed it in a word.
#[derive(Clone, Copy)]
struct Extent {
    // How many clocks are filled.
    clocks: u8,
    // How many rules are asked.
    rules: u8,
}

// The same ticks, with clock k's.
fn with_tick(mut ticks: [bool; 8], k: usize) -> [bool; 8]
    requires { k < 8 }
    ensures { result ≡ set ticks k true }
{
    ticks[k] = true;
    ticks
}

// Lists the fillings of the clocks from k on that the rules allow, after the first n: settles clock k, then those from k + 1; an unseen tick branches into idle and, where its clock has a flag, tick.
fn fill(
    lines: &[u32; NUMBERS],
    extent: Extent,
    flags: [bool; 8],
    k: usize,
    seen: [Tick; 8],
    ticks: [bool; 8],
    list: &mut [bool; LIST],
    n: usize,
) -> usize
    requires { Listing list.old extent flags k seen ticks n }
    ensures { Listed (allowed (plan_lines lines.now rules_from extent.rules)) (fillings_left flags seen extent.clocks k ticks) n result list.old list.new }
{
    let rules = usize::from(extent.rules);
    if k == usize::from(extent.clocks) {
        if all_hold(lines, rules, ticks) {
            put_flags(list, n, ticks);
            return n + 1;
        }
        return n;
    }
    match seen[k] {
        Tick::Idle => fill(lines, extent, flags, k + 1, seen, ticks, list, n),
        Tick::Ticks => {
            let set = with_tick(ticks, k);
            fill(lines, extent, flags, k + 1, seen, set, list, n)
        }
        Tick::Unseen => {
            if is_forbidden(lines, rules, k, ticks) {
                return n;
            }
            if !flags[k] {
                // No line, no obligation and no countdown held asks about this tick: with it nothing more is found.
                return fill(lines, extent, flags, k + 1, seen, ticks, list, n);
            }
            let idle = fill(lines, extent, flags, k + 1, seen, ticks, list, n);
            let set = with_tick(ticks, k);
            fill(lines, extent, flags, k + 1, seen, set, list, idle)
        }
    }
}

// The tags of an instant: none falls below its tag at the instant before, and each of n relations holds.
fn tags_fit(clocks: usize, lines: &[u32; NUMBERS], n: usize, before: Before, tags: [i16; 8]) -> bool
    requires { (clocks ≤ 8) × (n ≤ 16) }
    ensures { result ≡ (none_falls clocks (tags_before before.first before.tags) tags && all (tags_hold tags) (plan_lines lines.now relations_from n)) }
{
    (before.first || none_falls(clocks, before.tags, tags)) && all_tags_hold(lines, n, tags)
}

// What those held from row `from` on become by an instant, on the other side; the list of fillings is room to work in. Nothing is worked once exhausted or broken.
pub fn work_rows(
    rows: &mut [u32; SIZE],
    from: usize,
    count: Option<usize>,
    plan: Plan,
    lines: &[u32; NUMBERS],
    before: Before,
    instant: Instant,
    list: &mut [bool; LIST],
) -> Option<usize>
    requires { Working rows.old from count list.old × (before.room ≤ most_live) }
    ensures { Worked lines.now plan before instant from count result rows.old rows.new list.new }
{
    let n = count?;
    let tags = instant.tags;
    if n == 0 || !tags_fit(plan.clocks, lines, plan.relations, before, tags) {
        return Some(0);
    }
    // Both fit a byte: a plan has at most 8 clocks and 16 rules.
    let extent = Extent {
        clocks: plan.clocks as u8,
        rules: plan.rules as u8,
    };
    let flags = flag_rows(rows, from, n, plan.named);
    let m = fill(lines, extent, flags, 0, instant.ticks, [false; 8], list, 0);
    let conditions = Conditions {
        tags,
        room: before.room,
    };
    apply_all(rows, from, n, plan, lines, conditions, m, list)
}
