// Whether the sections of a plan are sound: each count within its limit, and what each section holds.
// What comes in: a list of 32-bit numbers, of any length.
// What goes out: whether its sections hold, and end where the list does.
#![tactic(auto, unfolding(plan::specs::Sound::port_ok, plan::specs::Sound::memory_fits, plan::specs::Sound::group_ok, plan::specs::Sound::rule_ok, crate::specs::Parts::ports_part, crate::specs::Parts::memories_part, crate::specs::Parts::groups_part, crate::specs::Parts::rules_part))]

ghost use Rattle.std.specs.Prelude.{[], ◌≡◌, ◌&&◌, suc, ◌+◌, ◌≤◌, eqb, leb, length};
ghost use Rattle.language.specs.Limits.{limits};
ghost use Rattle.plan.specs.Layout.{form, port_count, memory_count, cells_before, group_count, rules_before, rule_count, code_before, code_from, code_count};
ghost use Rattle.plan.specs.Sound.{port_ok, memory_fits, group_ok, rule_ok, all_up_to, sections_ok};
ghost use Rattle.plan.specs.Sound.{apart as sound_apart};
ghost use Rattle.plan_sections.specs.Parts.{ports_part, memories_part, groups_part, rules_part};

use bits::low;
use language::Plan;
use plan::{
    OUTPUT, absent_at, cells_before, code_before, code_count, code_from, group_at, group_count,
    length_at, memory_count, memory_size, memory_width, number, place, port_at, port_count,
    present_at, rule_count, rules_before, within,
};

fn port_ok(plan: &[u32], i: u32) -> bool
    ensures { result ≡ port_ok plan.now i }
{
    let p = port_at(plan, i);
    p % OUTPUT <= Plan::WIDTH && p < PORT_PAST
}

// Above every port: no output has more than OUTPUT beside its width.
const PORT_PAST: u32 = 2 * OUTPUT;

const CELLS: usize = Plan::CELLS as usize;

// The counts come first: no loop runs further than its limit.
fn ports_ok(plan: &[u32]) -> bool
    ensures { result ≡ ports_part plan.now }
{
    let n = port_count(plan);
    number(plan, 0) == 1 && 1 <= n && n <= Plan::PORTS && (0..n).all(|i| port_ok(plan, i))
}

fn memory_fits(plan: &[u32], m: u32) -> bool
    requires { m ≤ limits.memories }
    ensures { result ≡ memory_fits plan.now m }
{
    let size = memory_size(plan, m);
    memory_width(plan, m) <= Plan::WIDTH
        && 1 <= size
        && size <= Plan::SIZE
        && cells_before(plan, m + 1) <= CELLS
}

fn memories_ok(plan: &[u32]) -> bool
    ensures { result ≡ memories_part plan.now }
{
    let n = memory_count(plan);
    n <= Plan::MEMORIES && (0..n).all(|m| memory_fits(plan, m))
}

// At least one rule, and with those before no more than there are.
fn group_ok(plan: &[u32], g: u32) -> bool
    requires { g ≤ limits.groups }
    ensures { result ≡ group_ok plan.now g }
{
    1 <= group_at(plan, g) && rules_before(plan, g + 1) <= place(rule_count(plan))
}

fn groups_ok(plan: &[u32]) -> bool
    ensures { result ≡ groups_part plan.now }
{
    let n = group_count(plan);
    let rules = rule_count(plan);
    1 <= n
        && n <= Plan::GROUPS
        && rules <= Plan::RULES
        && rules_before(plan, n) == place(rules)
        && (0..n).all(|g| group_ok(plan, g))
}

// No bit below k is in both masks.
#[tactic(auto, using(crate::proofs::Parts::apart_low))]
fn apart(a: u32, b: u32, k: u32) -> bool
    ensures { result ≡ sound_apart [] a b k }
{
    low(u64::from(a & b), k) == 0
}

// The code of the rules up to this one ends within the count.
#[tactic(auto, using(crate::proofs::Parts::apart_any), unfolding(plan::specs::Sound::rule_ok))]
fn rule_ok(plan: &[u32], r: u32, end: usize, count: usize) -> bool
    requires { (end ≡ code_before plan.now (suc r)) × (count ≡ code_count plan.now) }
    ensures { result ≡ rule_ok plan.now r }
{
    let a = present_at(plan, r);
    let b = absent_at(plan, r);
    let n = port_count(plan);
    within(u64::from(a), n)
        && within(u64::from(b), n)
        && apart(a, b, n)
        && (a != 0 || b != 0)
        && length_at(plan, r) % 4 == 0
        && end <= count
}

// A loop and no `all`, since each rule's code ends where those before it do.
#[tactic(auto, using(crate::proofs::Parts::all_next, crate::proofs::Parts::all_not, crate::proofs::Parts::code_next), unfolding(plan::specs::Sound::all_up_to, plan::specs::Layout::code_before))]
fn rules_hold(plan: &[u32], n: u32, count: usize) -> bool
    requires { (n ≤ limits.rules) × (count ≡ code_count plan.now) }
    ensures { result ≡ all_up_to plan.now n (rule_ok plan.now) }
{
    let mut end = 0;
    for r in 0..n {
        end += place(length_at(plan, r));
        if !rule_ok(plan, r, end, count) {
            return false;
        }
    }
    true
}

// The lengths add up to the count, and nothing follows.
fn rules_ok(plan: &[u32]) -> bool
    requires { rule_count plan.now ≤ limits.rules }
    ensures { result ≡ rules_part plan.now }
{
    let n = rule_count(plan);
    let code = place(code_count(plan));
    rules_hold(plan, n, code)
        && code_before(plan, n) == code
        && plan.len() == code_from(plan) + 1 + code
}

// A section is looked at where those before it are in order.
#[tactic(auto, using(crate::proofs::Parts::sections_parts, crate::proofs::Parts::few_rules))]
pub fn sections_ok(plan: &[u32]) -> bool
    ensures { result ≡ sections_ok plan.now }
{
    ports_ok(plan) && memories_ok(plan) && groups_ok(plan) && rules_ok(plan)
}
