// One cycle over a plan, and runs of cycles.
// What comes in: a plan, a mask, values, memory, outputs. What goes out: the answer, the number of
// present ports, and the outputs and memory as the plan means them.
#![tactic(auto)]

mod runs;

ghost use Rattle.std.specs.Prelude.{◌≡◌};
ghost use Rattle.turn.specs.Cycle.{cycle_of};
ghost use Rattle.cycle.specs.Run.{result as run_result, run_of};
ghost use Rattle.turn.specs.Turn.{outcome};

use judged::{Refusal, counts};
use runs::{tables_fit, turns};
use soundness::sound;
use turn::Done;

// One cycle of any plan over any tables: a run of one. So the code of a cycle stands once in a program, with its tables beside it.
pub fn cycle(
    plan: &[u32],
    mask: u32,
    values: &[u64],
    memory: &mut [u64],
    outputs: &mut [u64],
) -> Done
    ensures { outcome result.answer result.present outputs.new memory.new
        ≡ cycle_of plan.now mask values.now memory.old outputs.old }
{
    if !sound(plan) {
        return Done::from(Err(Refusal::Unsound));
    }
    if !counts(plan, values, memory, outputs) {
        return Done::from(Err(Refusal::Miscounted));
    }
    let mut answers = [0u32; 2];
    turns(plan, &[mask], values, memory, outputs, &mut answers);
    let [answer, present] = answers;
    Done { answer, present }
}

// Cycle after cycle, with a mask for each: 20 or 21 where nothing is run, else 0 and each cycle's own two numbers.
// No Result: its promise to users, `run_of`, is of the number.
pub fn run(
    plan: &[u32],
    masks: &[u32],
    values: &[u64],
    memory: &mut [u64],
    outputs: &mut [u64],
    answers: &mut [u32],
) -> u32
    ensures { let after = run_result result memory.new outputs.new answers.new in
        after ≡ run_of plan.now masks.now values.now memory.old outputs.old answers.old }
{
    if !sound(plan) {
        return u32::from(Refusal::Unsound);
    }
    if !tables_fit(plan, masks, values, memory, outputs, answers) {
        return u32::from(Refusal::Miscounted);
    }
    turns(plan, masks, values, memory, outputs, answers);
    0
}
