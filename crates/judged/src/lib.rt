// What is known of a cycle before anything is run.
// What comes in: a sound plan, a mask, values, memory. What goes out: the rules that fire, or why
// the cycle is refused, and the numbers of its answers.
#![tactic(auto)]

mod groups;
mod tests;

ghost use Rattle.std.specs.Prelude.{◌≡◌, true, length};
ghost use Rattle.plan.specs.Layout.{port_count, memory_count, cells_before};
ghost use Rattle.plan.specs.Sound.{sections_ok};
ghost use Rattle.judged.specs.Judged.{judged, judged_as};

use groups::fire;
pub use tests::counts;
use tests::fitting;

// The rules that fire are one of each group.
pub const GROUPS: usize = language::Plan::GROUPS as usize;

// Why a cycle is refused, by 01's number.
#[derive(Clone, Copy, PartialEq, Eq)]
pub enum Refusal {
    Unsound = 20,
    Miscounted = 21,
    Unfit = 22,
    Unmatched = 23,
    Ambiguous = 24,
    Clash = 25,
}

// 01's number of a refusal.
impl From<Refusal> for u32 {
    ghost use Rattle.std.specs.Prelude.{◌≡◌};
    ghost use Rattle.judged.specs.Answers.{number_of};

    ghost from_gives = { λ why number. number ≡ number_of why };

    fn from(why: Refusal) -> u32 {
        why as u32
    }
}

// The rules that fire, into `fired`, or numbers 22 to 24.
pub fn judge(
    plan: &[u32],
    mask: u32,
    values: &[u64],
    memory: &[u64],
    fired: &mut [u32; GROUPS],
) -> Result<(), Refusal>
    requires plan_value { sections_ok plan.now ≡ true }
    requires values_len { (length values.now ≡ port_count plan.now) × (length memory.now ≡ cells_before plan.now (memory_count plan.now)) }
    ensures { judged_as plan.now result fired.new ≡ judged plan.now mask values.now memory.now }
{
    if !fitting(plan, mask, values, memory) {
        return Err(Refusal::Unfit);
    }
    fire(plan, mask, fired)
}
