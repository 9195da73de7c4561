// One cycle of a sound plan: it is judged, the rules act where nobody sees, and what they leave is committed.
// What comes in: a sound plan, a mask, values, memory, outputs, and tables to work in. What goes out: the
// number of present ports or why the cycle is refused, and the outputs and memory as the plan means them.
#![tactic(auto)]

ghost use Rattle.std.specs.Prelude.{◌≡◌, true, ◌≤◌, length, take};
ghost use Rattle.plan.specs.Sound.{sound_of};
ghost use Rattle.judged.specs.Tests.{counts as tests_counts};
ghost use Rattle.turn.specs.Cycle.{cycle_of};
ghost use Rattle.turn.specs.Turn.{ended};

use bits::present;
use item_steps::Tables;
use judged::{GROUPS, Refusal, judge};
use machine::act;

const PORTS: usize = language::Plan::PORTS as usize;

// The answer of a cycle as 01's number, and the number of present ports, 0 where it is refused.
// No Result: `cycle::cycle` promises its users these two numbers.
#[derive(Clone, Copy)]
pub struct Done {
    pub answer: u32,
    pub present: u32,
}

impl From<Result<u32, Refusal>> for Done {
    ghost use Rattle.std.specs.Prelude.{◌≡◌};
    ghost use Rattle.turn.specs.Turn.{answer_of, present_of};

    ghost from_gives = { λ ended done. (done.answer ≡ answer_of ended) × (done.present ≡ present_of ended) };

    fn from(ended: Result<u32, Refusal>) -> Done {
        match ended {
            Ok(present) => Done { answer: 0, present },
            Err(why) => Done {
                answer: u32::from(why),
                present: 0,
            },
        }
    }
}

// The cells and the outputs, as the rules have left them.
fn commit(memory: &mut [u64], next: &[u64], outputs: &mut [u64], held: &[u64])
    requires { (length memory.old ≤ length next.now) × (length outputs.old ≤ length held.now) }
    ensures memory_after { memory.new ≡ take (length memory.old) next.now }
    ensures outputs_after { outputs.new ≡ take (length outputs.old) held.now }
{
    memory.copy_from_slice(&next[..memory.len()]);
    outputs.copy_from_slice(&held[..outputs.len()]);
}

// Nothing is changed before the last test has passed.
pub fn turn<const CELLS: usize>(
    plan: &[u32],
    mask: u32,
    values: &[u64],
    memory: &mut [u64],
    outputs: &mut [u64],
    tables: &mut Tables<CELLS>,
) -> Result<u32, Refusal>
    requires plan_value { sound_of plan.now ≡ true }
    requires outputs_value { tests_counts plan.now values.now memory.old outputs.old ≡ true }
    requires tables { length memory.old ≤ CELLS }
    ensures { ended result outputs.new memory.new
        ≡ cycle_of plan.now mask values.now memory.old outputs.old }
{
    let mut fired = [0u32; GROUPS];
    judge(plan, mask, values, memory, &mut fired)?;
    let mut held = [0u64; PORTS];
    act(plan, &fired, values, memory, &mut held, tables);
    if tables.clash {
        return Err(Refusal::Clash);
    }
    commit(memory, &tables.next, outputs, &held);
    Ok(present(mask))
}
