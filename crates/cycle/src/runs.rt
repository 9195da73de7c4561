// A run of cycles over a plan that is known to be sound.
ghost use Rattle.std.specs.Prelude.{◌≡◌, true, ◌*◌, eqb, length};
ghost use Rattle.plan.specs.Sound.{sound_of};
ghost use Rattle.cycle.specs.Run.{result as run_result, turns_of, tables_fit};

use item_steps::Tables;
use plan::{cells_before, memory_count, place, port_count};
use turn::{Done, turn};

// A plan has no more cells.
const CELLS: usize = language::Plan::CELLS as usize;

// A table has n numbers for each of k: a product that is too large is no length.
fn times(len: usize, n: usize, k: usize) -> bool
    ensures { result ≡ eqb len (k * n) }
{
    k.checked_mul(n) == Some(len)
}

// Each table has as many numbers as the masks ask for.
pub fn tables_fit(
    plan: &[u32],
    masks: &[u32],
    values: &[u64],
    memory: &[u64],
    outputs: &[u64],
    answers: &[u32],
) -> bool
    ensures { result ≡ tables_fit plan.now masks.now values.now memory.now outputs.now answers.now }
{
    let n = place(port_count(plan));
    let k = masks.len();
    let cells = memory.len() == cells_before(plan, memory_count(plan));
    times(values.len(), n, k) & times(outputs.len(), n, k) & times(answers.len(), 2, k) & cells
}

// Cycle after cycle, each with its own part of the tables, over a table of their own, so that what is written there cannot be the plan or the cells.
pub fn turns(
    plan: &[u32],
    masks: &[u32],
    values: &[u64],
    memory: &mut [u64],
    outputs: &mut [u64],
    answers: &mut [u32],
)
    requires plan_value { sound_of plan.now ≡ true }
    requires answers_value { tables_fit plan.now masks.now values.now memory.old outputs.old answers.old ≡ true }
    ensures { let after = run_result 0 memory.new outputs.new answers.new in
        after ≡ turns_of plan.now masks.now values.now memory.old outputs.old }
{
    let n = place(port_count(plan));
    let mut tables = Tables::<CELLS>::new();
    for (k, mask) in masks.iter().enumerate() {
        // Parts by their ends and no zip of chunks, which would be four iterators, two of them lent to write, for two lines.
        let at = k * n;
        let end = at + n;
        let done = Done::from(turn(
            plan,
            *mask,
            &values[at..end],
            memory,
            &mut outputs[at..end],
            &mut tables,
        ));
        let q = k * 2;
        answers[q] = done.answer;
        answers[q + 1] = done.present;
    }
}
