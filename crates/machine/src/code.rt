// The code of a sound rule, item by item, and the rules that fire, one after the other.
ghost use Rattle.std.specs.Prelude.{◌≡◌, [], ℕ, ◌≤◌, ◌<◌, length, get_or};
ghost use Rattle.plan.specs.Layout.{port_count};
ghost use Rattle.item_steps.specs.Machine.{state, exec_rules};
ghost use Rattle.machine.specs.Fires.{Fires, rule_run};
ghost use Rattle.item_steps.specs.Ready.{Writes, Carried};
ghost use Rattle.machine.specs.Safety.{Ran, Held, SafeItems, items_run};

use item_steps::{Tables, step};
use plan::{SLOTS, code_at, fetch_sound, place};

// Some items from a place of the plan on.
fn run_items<const CELLS: usize>(
    plan: &[u32],
    values: &[u64],
    memory: &[u64],
    outputs: &mut [u64],
    slots: &mut [u64],
    tables: &mut Tables<CELLS>,
    from: usize,
    items: usize,
)
    requires safe_items { SafeItems plan.now values.now memory.now slots.old outputs.old from items }
    requires tables { (length memory.now ≤ CELLS) × Held memory.now tables.old }
    ensures { let held = Writes memory.now tables.old in
        let run = items_run plan.now values.now memory.now slots.old outputs.old from items in
        let left = Ran memory.now outputs.new tables.new in
        Carried held run left }
{
    let mut n = 0;
    for i in 0..items {
        let item = fetch_sound(plan, from + 4 * i);
        n = step(item, values, memory, slots, outputs, tables, n);
    }
}

// A rule's code, with slots of its own.
fn run_rule<const CELLS: usize>(
    plan: &[u32],
    r: u32,
    values: &[u64],
    memory: &[u64],
    outputs: &mut [u64],
    tables: &mut Tables<CELLS>,
)
    requires fires { Fires plan.now values.now memory.now r × (length outputs.old ≡ port_count plan.now) }
    requires tables { (length memory.now ≤ CELLS) × Held memory.now tables.old }
    ensures { let held = Writes memory.now tables.old in
        let run = rule_run plan.now values.now memory.now r outputs.old in
        let left = Ran memory.now outputs.new tables.new in
        Carried held run left }
{
    let mut slots = [0u64; SLOTS];
    let code = code_at(plan, r);
    let items = place(code.length) / 4;
    run_items(
        plan, values, memory, outputs, &mut slots, tables, code.from, items,
    );
}

// The rules that fire, one after the other.
pub fn run_rules<const CELLS: usize>(
    plan: &[u32],
    fired: &[u32],
    values: &[u64],
    memory: &[u64],
    outputs: &mut [u64],
    tables: &mut Tables<CELLS>,
)
    requires by_index { (j : ℕ) → j < length fired.now → Fires plan.now values.now memory.now (get_or fired.now j 0) }
    requires outputs_len { length outputs.old ≡ port_count plan.now }
    requires tables { (length memory.now ≤ CELLS) × Writes memory.now tables.old [] }
    ensures { let before = state [] [] outputs.old [] in
        let run = exec_rules plan.now values.now memory.now fired.now before in
        Ran memory.now outputs.new tables.new run }
{
    for r in fired {
        run_rule(plan, *r, values, memory, outputs, tables);
    }
}
