// Whether any list of numbers is a sound plan: its sections, then the code of its rules, group after group.
ghost use Rattle.std.specs.Prelude.{◌≡◌, true, ◌+◌, ◌≤◌, ◌<◌, length};
ghost use Rattle.plan.specs.Layout.{group_count, rule_count};
ghost use Rattle.plan.specs.Sound.{sections_ok, group_check, groups_check, sound_of, waiting};
ghost use Rattle.soundness.specs.Steps.{masks, end_at, Masked};

use crate::steps::check_rule;
use plan::{WAITS, code_before, code_from, group_at, group_count, length_at, place};
use plan_sections::sections_ok;

// The rules of a group: the outputs assigned by it and before it.
fn check_group(plan: &[u32], taken: u32, first: u32, count: u32, ws: &mut [u32]) -> Option<u32>
    requires { (sections_ok plan.now ≡ true) × (first + count ≤ rule_count plan.now) × (taken < masks) × (length ws.old ≡ waiting) }
    ensures { Masked result × (end_at result ≡ group_check plan.now taken taken first count) }
{
    let mut mine = taken;
    let mut from = code_from(plan) + 1 + code_before(plan, first);
    for i in 0..count {
        let mask = check_rule(plan, taken, first + i, from, ws)?;
        mine |= mask;
        from += place(length_at(plan, first + i));
    }
    Some(mine)
}

fn check_groups(plan: &[u32], ws: &mut [u32]) -> bool
    requires { (sections_ok plan.now ≡ true) × (length ws.old ≡ waiting) }
    ensures { result ≡ groups_check plan.now 0 0 (group_count plan.now) }
{
    let groups = group_count(plan);
    let mut taken = 0;
    let mut first = 0;
    for g in 0..groups {
        let count = group_at(plan, g);
        let Some(mask) = check_group(plan, taken, first, count, ws) else {
            return false;
        };
        taken = mask;
        first += count;
    }
    true
}

// Any list of numbers of any length gets an answer.
#[tactic(auto, unfolding(plan::specs::Sound::sound_of))]
pub fn sound(plan: &[u32]) -> bool
    ensures { result ≡ sound_of plan.now }
{
    let mut ws = [0u32; WAITS];
    sections_ok(plan) && check_groups(plan, &mut ws)
}
