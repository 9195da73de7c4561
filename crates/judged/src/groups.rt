// Which rules fire: one of each group, or number 23 or 24.
ghost use Rattle.std.specs.Prelude.{◌≡◌, true, ◌+◌, ◌≤◌, ◌<◌};
ghost use Rattle.plan.specs.Layout.{group_count, rules_from, greatest, farthest};
ghost use Rattle.plan.specs.Sound.{sections_ok};
ghost use Rattle.judged.specs.Groups.{matches_of, matching, firing};
ghost use Rattle.judged.specs.Judged.{only_of, judged_as};

use crate::{GROUPS, Refusal};
use bits::matches;
use plan::{group_in, groups_from, groups_in, masks_in, place};

// By and-ing the mask with the rule's two.
fn rule_matches(plan: &[u32], from: usize, mask: u32, r: u32) -> bool
    requires { (from ≡ rules_from plan.now) × (from < farthest) }
    ensures { result ≡ matches_of plan.now mask r }
{
    let masks = masks_in(plan, from, r);
    matches(mask, masks.present, masks.absent)
}

// The one rule of n from `first` on that matches, where the rules' section is known.
fn only(plan: &[u32], from: usize, mask: u32, first: u32, n: u32) -> Result<u32, Refusal>
    requires { (from ≡ rules_from plan.now) × (from < farthest) × (first + n ≤ greatest) }
    ensures { result ≡ only_of (matching plan.now mask first n) }
{
    let mut found = None;
    for r in first..first + n {
        if rule_matches(plan, from, mask, r) {
            if found.is_some() {
                return Err(Refusal::Ambiguous);
            }
            found = Some(r);
        }
    }
    found.ok_or(Refusal::Unmatched)
}

// The rules that fire, into `fired`, group after group, up to the first that has no such rule.
pub fn fire(plan: &[u32], mask: u32, fired: &mut [u32; GROUPS]) -> Result<(), Refusal>
    requires { sections_ok plan.now ≡ true }
    ensures { judged_as plan.now result fired.new ≡ firing plan.now mask 0 (group_count plan.now) }
{
    let from = groups_from(plan);
    let groups = groups_in(plan, from);
    // the rules' section follows that of the groups
    let rules = from + 1 + place(groups);
    let mut first = 0;
    for g in 0..groups {
        let n = group_in(plan, from, g);
        fired[place(g)] = only(plan, rules, mask, first, n)?;
        first += n;
    }
    Ok(())
}
