// The code of the rules that fire, over tables that nobody sees.
// What comes in: a sound plan, the rules that fire, values, memory. What goes out: the outputs, and in the
// tables the cells as they will be and whether a cell was written twice.
#![tactic(auto)]

mod code;

ghost use Rattle.std.specs.Prelude.{ℕ, ◌≤◌, ◌<◌, ◌≡◌, length, get_or, replicate};
ghost use Rattle.language.specs.Limits.{limits};
ghost use Rattle.plan.specs.Layout.{port_count, group_count};
ghost use Rattle.machine.specs.Fires.{Fires, FiredRan};

use code::run_rules;
use item_steps::Tables;
use plan::{group_count, place, port_count};

// The rules that fire, one of each group, over cells and outputs that nobody sees yet.
pub fn act<const CELLS: usize>(
    plan: &[u32],
    fired: &[u32],
    values: &[u64],
    memory: &[u64],
    outputs: &mut [u64],
    tables: &mut Tables<CELLS>,
)
    requires plan_bound { (port_count plan.now ≤ limits.ports) × (group_count plan.now ≤ length fired.now) }
    requires outputs_value { outputs.old ≡ replicate limits.ports 0 }
    requires tables { length memory.now ≤ CELLS }
    requires by_index { (j : ℕ) → j < group_count plan.now → Fires plan.now values.now memory.now (get_or fired.now j 0) }
    ensures { FiredRan plan.now values.now memory.now fired.now outputs.new tables.new }
{
    let groups = place(group_count(plan));
    let ports = place(port_count(plan));
    tables.begin(memory);
    run_rules(
        plan,
        &fired[..groups],
        values,
        memory,
        &mut outputs[..ports],
        tables,
    );
}
