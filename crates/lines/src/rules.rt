// What n rules, the implies, excludes and kills lines of a sheet, say of a filling. A number of rules is at most 16 by the type of the plan that has it; these take the number alone.
ghost use Rattle.std.specs.Prelude.{◌≡◌, false, not, ◌&&◌, ◌||◌, ℕ, ◌≤◌, ◌<◌, ltb, replicate};
ghost use Rattle.tesl.specs.Lists.{any};
ghost use Rattle.work.specs.Lines.{all_stopped};
ghost use Rattle.work.specs.Questions.{ticks_hold};
ghost use Rattle.work.specs.Rules.{allowed, is_settled, forbids};
ghost use Rattle.lines.specs.LineWords.{line_by};
ghost use Rattle.lines.specs.Plan.{plan_rows, plan_lines, rules_from, RuleWords};

use crate::line::stopped_after;
use crate::plan::{LINE_WIDTH, NUMBERS, RULES};
use crate::sorted::plan_line;
use records::number;
use remainders::clock::ticks_at;
use remainders::word::{byte_in, number_in};

// A rule by its words, without the line made of them: the words are asked about at each filling.
#[derive(Clone, Copy)]
pub(crate) struct Rule {
    // Its kind.
    pub kind: u16,
    // Its clocks A and B.
    pub a: u8,
    pub b: u8,
}

// The rule of row j.
fn rule_in(lines: &[u32; NUMBERS], j: usize) -> Rule
    requires { j < plan_rows }
    ensures { RuleWords lines.now j result }
{
    let at = LINE_WIDTH * j;
    Rule {
        kind: number_in(lines[at]),
        a: byte_in(lines[at + 1]),
        b: byte_in(lines[at + 2]),
    }
}

// What a rule asks of the ticks alone: once per filling.
#[tactic(auto, unfolding(crate::specs::LineWords::line_by))]
fn holds(r: Rule, ticks: [bool; 8]) -> bool
    ensures { (d x y : ℕ) → result ≡ ticks_hold ticks (line_by r.kind r.a r.b d x y) }
{
    match r.kind {
        number::IMPLIES => !ticks_at(ticks, r.a) || ticks_at(ticks, r.b),
        number::SPORADIC
        | number::RELATION
        | number::DELAYED
        | number::WEAKLY
        | number::STRICTLY
        | number::COUNTED => true,
        // Excludes and kills.
        _ => !(ticks_at(ticks, r.a) && ticks_at(ticks, r.b)),
    }
}

// What the rules ask of the ticks.
pub fn all_hold(lines: &[u32; NUMBERS], n: usize, ticks: [bool; 8]) -> bool
    requires { n ≤ 16 }
    ensures { result ≡ allowed (plan_lines lines.now rules_from n) ticks }
{
    for i in 0..n {
        if !holds(rule_in(lines, RULES + i), ticks) {
            return false;
        }
    }
    true
}

// A rule whose clocks are below k.
#[tactic(auto, unfolding(crate::specs::LineWords::line_by))]
fn is_settled(r: Rule, k: usize) -> bool
    ensures { (d x y : ℕ) → result ≡ is_settled k (line_by r.kind r.a r.b d x y) }
{
    match r.kind {
        number::SPORADIC
        | number::RELATION
        | number::DELAYED
        | number::WEAKLY
        | number::STRICTLY
        | number::COUNTED => false,
        // Implies, excludes and kills.
        _ => usize::from(r.a) < k && usize::from(r.b) < k,
    }
}

// A rule whose clocks are below k forbids these ticks.
pub fn is_forbidden(lines: &[u32; NUMBERS], n: usize, k: usize, ticks: [bool; 8]) -> bool
    requires { n ≤ 16 }
    ensures { result ≡ any (forbids k ticks) (plan_lines lines.now rules_from n) }
{
    for i in 0..n {
        let r = rule_in(lines, RULES + i);
        if is_settled(r, k) && !holds(r, ticks) {
            return true;
        }
    }
    false
}

// The clocks that the kills lines stop. (`next`: as in `flag_part`.)
pub fn all_stops(lines: &[u32; NUMBERS], n: usize, ticks: [bool; 8]) -> [bool; 8]
    requires { n ≤ 16 }
    ensures { result ≡ all_stopped ticks (plan_lines lines.now rules_from n) (replicate 8 false) }
{
    let mut stops = [false; 8];
    for i in 0..n {
        let next = stopped_after(plan_line(lines, RULES + i), ticks, stops);
        stops = next;
    }
    stops
}
