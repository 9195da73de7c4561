// How far the walk is after an item.
ghost use Rattle.std.specs.Prelude.{◌≡◌, ◌+◌, ◌≤◌};
ghost use Rattle.settled.specs.Form.{most_settled};
ghost use Rattle.size_walk.specs.Steps.{around_of, onward_of};

use crate::Far;
use crate::effects::sooner;
use settled::{BITS, RULED, SELECT, SELECTED};

// The cases around, after an item.
#[tactic(auto, unfolding(crate::specs::Steps::around_of))]
fn around(op: u32, cases: u32) -> u32
    requires { cases ≤ most_settled }
    ensures { (result ≡ around_of op cases) × (result ≤ cases + 1) }
{
    match op {
        SELECT => cases + 1,
        SELECTED => cases.saturating_sub(1),
        _ => cases,
    }
}

// So many wait, the code is so long, and so many rules have ended: how far the walk is.
#[tactic(auto, unfolding(crate::specs::Steps::onward_of, crate::specs::Steps::pick))]
pub fn onward(
    op: u32,
    p: u32,
    a: u32,
    fault: Option<u32>,
    waits: usize,
    out: usize,
    rules: usize,
    far: Far,
) -> Far
    requires { far.cases ≤ most_settled }
    ensures { (result ≡ onward_of op p a fault waits out rules far) × (result.cases ≤ far.cases + 1) }
{
    let (breadth, start) = if op == BITS {
        (a, p)
    } else {
        (far.breadth, far.start)
    };
    let rule = if op == RULED { out } else { far.rule };
    Far {
        waits,
        out,
        first: sooner(fault, far.first),
        breadth,
        start,
        cases: around(op, far.cases),
        rules,
        rule,
    }
}
