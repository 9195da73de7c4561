// Where the numbers of a plan stand, and what stands there.
#![tactic(auto, unfolding(crate::specs::Layout::memories_from, crate::specs::Layout::memory_count, crate::specs::Layout::memory_width_at, crate::specs::Layout::memory_size_at, crate::specs::Layout::groups_from, crate::specs::Layout::group_count, crate::specs::Layout::group_at, crate::specs::Layout::rules_from, crate::specs::Layout::rule_count, crate::specs::Layout::present_at, crate::specs::Layout::absent_at, crate::specs::Layout::length_at, crate::specs::Layout::code_from, crate::specs::Layout::code_count))]

ghost use Rattle.std.specs.Prelude.{◌≡◌, ◌+◌, ◌*◌, ◌^◌, ◌≤◌, ◌<◌, ltb, length, get_or};
ghost use Rattle.language.specs.Values.{bit_of};
ghost use Rattle.plan.specs.Layout.{port_count, port_at, memories_from, memory_count, memory_width_at, memory_size_at, cells_before, groups_from, group_count, group_at, rules_before, rules_from, rule_count, present_at, absent_at, length_at, code_before, code_from, code_count};
ghost use Rattle.plan.specs.Layout.{sum_of, greatest, farthest};

use crate::MASK_BITS;

// A number of 32 bits as a place, with its bound, from which the sums of a layout have theirs.
pub fn place(x: u32) -> usize
    ensures { (result ≡ x) × (result < 4294967296) }
{
    x as usize
}

// Bit k of a mask, 0 past its end; `checked_shr` with its 0 would say it no plainer.
#[tactic(auto, using(crate::proofs::Lists::bit_past), unfolding(language::specs::Values::bit_of))]
pub fn bit(a: u32, k: u32) -> u32
    ensures { result ≡ bit_of a k }
{
    if k < MASK_BITS { (a >> k) % 2 } else { 0 }
}

// A value fits a width.
#[tactic(auto, using(crate::proofs::Lists::fits_past, crate::proofs::Lists::one_shl))]
pub fn within(x: u64, w: u32) -> bool
    ensures { result ≡ ltb x (2 ^ w) }
{
    w >= 64 || x < 1 << w
}

// A number of the plan, 0 past its end.
pub fn number(plan: &[u32], at: usize) -> u32
    ensures { result ≡ get_or plan.now at 0 }
{
    plan.get(at).copied().unwrap_or(0)
}

// The sum of n numbers of the plan, each `step` places after the one before.
#[tactic(auto, using(crate::proofs::Lists::sum_next, crate::proofs::Lists::place_next), unfolding(crate::specs::Layout::sum_of))]
fn sum(plan: &[u32], from: usize, step: usize, n: u32) -> usize
    requires { (from < 137438953472) × (step ≤ 3) }
    ensures { (result ≡ sum_of plan.now from step n) × (result ≤ greatest * n) }
{
    let mut total = 0;
    let mut at = from;
    for _i in 0..n {
        total += place(number(plan, at));
        at += step;
    }
    total
}

pub fn port_count(plan: &[u32]) -> u32
    ensures { result ≡ port_count plan.now }
{
    number(plan, 1)
}

pub fn port_at(plan: &[u32], i: u32) -> u32
    ensures { result ≡ port_at plan.now i }
{
    number(plan, 2 + place(i))
}

pub fn memories_from(plan: &[u32]) -> usize
    ensures { (result ≡ memories_from plan.now) × (result < 8589934592) }
{
    2 + place(port_count(plan))
}

pub fn memory_count(plan: &[u32]) -> u32
    ensures { result ≡ memory_count plan.now }
{
    number(plan, memories_from(plan))
}

pub fn memory_width(plan: &[u32], m: u32) -> u32
    ensures { result ≡ memory_width_at plan.now m }
{
    number(plan, memories_from(plan) + 1 + 2 * place(m))
}

pub fn memory_size(plan: &[u32], m: u32) -> u32
    ensures { result ≡ memory_size_at plan.now m }
{
    number(plan, memories_from(plan) + 2 + 2 * place(m))
}

// The cells of the first m memories.
#[tactic(auto, using(crate::proofs::Lists::cells_sum))]
pub fn cells_before(plan: &[u32], m: u32) -> usize
    ensures { (result ≡ cells_before plan.now m) × (result ≤ greatest * m) }
{
    sum(plan, memories_from(plan) + 2, 2, m)
}

pub fn groups_from(plan: &[u32]) -> usize
    ensures { (result ≡ groups_from plan.now) × (result < 34359738368) }
{
    memories_from(plan) + 1 + 2 * place(memory_count(plan))
}

pub fn group_count(plan: &[u32]) -> u32
    ensures { result ≡ group_count plan.now }
{
    number(plan, groups_from(plan))
}

// The number of rules in a group.
pub fn group_at(plan: &[u32], g: u32) -> u32
    ensures { result ≡ group_at plan.now g }
{
    number(plan, groups_from(plan) + 1 + place(g))
}

// The same, of groups that begin at a place: they are looked for once.
pub fn group_in(plan: &[u32], from: usize, g: u32) -> u32
    requires { (from ≡ groups_from plan.now) × (from < 34359738368) }
    ensures { result ≡ group_at plan.now g }
{
    number(plan, from + 1 + place(g))
}

pub fn groups_in(plan: &[u32], from: usize) -> u32
    requires { from ≡ groups_from plan.now }
    ensures { result ≡ group_count plan.now }
{
    number(plan, from)
}

// The rules of the first g groups.
#[tactic(auto, using(crate::proofs::Lists::rules_sum))]
pub fn rules_before(plan: &[u32], g: u32) -> usize
    ensures { (result ≡ rules_before plan.now g) × (result ≤ greatest * g) }
{
    sum(plan, groups_from(plan) + 1, 1, g)
}

pub fn rules_from(plan: &[u32]) -> usize
    ensures { (result ≡ rules_from plan.now) × (result < farthest) }
{
    groups_from(plan) + 1 + place(group_count(plan))
}

pub fn rule_count(plan: &[u32]) -> u32
    ensures { result ≡ rule_count plan.now }
{
    number(plan, rules_from(plan))
}

// The mask of the ports that a rule requires present.
pub fn present_at(plan: &[u32], r: u32) -> u32
    ensures { result ≡ present_at plan.now r }
{
    number(plan, rules_from(plan) + 1 + 3 * place(r))
}

// The mask of the ports that a rule requires absent.
pub fn absent_at(plan: &[u32], r: u32) -> u32
    ensures { result ≡ absent_at plan.now r }
{
    number(plan, rules_from(plan) + 2 + 3 * place(r))
}

// Both masks of a rule, of rules that begin at a place.
#[derive(Clone, Copy)]
pub struct Masks {
    pub present: u32,
    pub absent: u32,
}

pub fn masks_in(plan: &[u32], from: usize, r: u32) -> Masks
    requires { (from ≡ rules_from plan.now) × (from < farthest) }
    ensures { (result.present ≡ present_at plan.now r) × (result.absent ≡ absent_at plan.now r) }
{
    Masks {
        present: number(plan, from + 1 + 3 * place(r)),
        absent: number(plan, from + 2 + 3 * place(r)),
    }
}

// The length of a rule's code.
pub fn length_at(plan: &[u32], r: u32) -> u32
    ensures { result ≡ length_at plan.now r }
{
    number(plan, rules_from(plan) + 3 + 3 * place(r))
}

// The numbers of code of the first r rules.
#[tactic(auto, using(crate::proofs::Lists::code_sum))]
pub fn code_before(plan: &[u32], r: u32) -> usize
    ensures { (result ≡ code_before plan.now r) × (result ≤ greatest * r) }
{
    sum(plan, rules_from(plan) + 3, 3, r)
}

pub fn code_from(plan: &[u32]) -> usize
    ensures { (result ≡ code_from plan.now) × (result < 137438953472) }
{
    rules_from(plan) + 1 + 3 * place(rule_count(plan))
}

// A rule's code: where it begins, and its length.
#[derive(Clone, Copy)]
pub struct Stretch {
    pub from: usize,
    pub length: u32,
}

#[tactic(auto, using(crate::proofs::Lists::code_sum), unfolding(crate::specs::Layout::code_from, crate::specs::Layout::rule_count, crate::specs::Layout::length_at))]
pub fn code_at(plan: &[u32], r: u32) -> Stretch
    requires { code_from plan.now + 1 + code_before plan.now r ≤ length plan.now }
    ensures { (result.from ≡ code_from plan.now + 1 + code_before plan.now r) × (result.length ≡ length_at plan.now r) }
{
    let from = rules_from(plan);
    let rules = place(number(plan, from));
    let before = sum(plan, from + 3, 3, r);
    Stretch {
        from: from + 1 + 3 * rules + 1 + before,
        length: number(plan, from + 3 + 3 * place(r)),
    }
}

pub fn code_count(plan: &[u32]) -> u32
    ensures { result ≡ code_count plan.now }
{
    number(plan, code_from(plan))
}
