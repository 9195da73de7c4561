// The tests of a cycle, before anything of it is worked out: numbers 21 and 22.
// They are joined by `&` and not by `all` or `&&`: each is made, and no branch waits for the one before it.
ghost use Rattle.std.specs.Prelude.{◌≡◌, ◌+◌, ◌≤◌, bit_or, length};
ghost use Rattle.std.specs.List.{fold};
ghost use Rattle.plan.specs.Layout.{port_count, memory_count, memory_size_at, cells_before};
ghost use Rattle.judged.specs.Tests.{all_below, input_fits, memory_fits};
ghost use Rattle.judged.specs.Tests.{counts as tests_counts};
ghost use Rattle.judged.specs.Tests.{fitting as tests_fitting};

use item_steps::slot;
use plan::{
    OUTPUT, bit, cells_before, memory_count, memory_size, memory_width, place, port_at, port_count,
    within,
};

// A value and an output slot for each port, a cell for each cell.
pub fn counts(plan: &[u32], values: &[u64], memory: &[u64], outputs: &[u64]) -> bool
    ensures { result ≡ tests_counts plan.now values.now memory.now outputs.now }
{
    let n = place(port_count(plan));
    (values.len() == n)
        & (outputs.len() == n)
        & (memory.len() == cells_before(plan, memory_count(plan)))
}

// An absent input is not looked at, nor is an output's slot.
fn input_fits(plan: &[u32], mask: u32, values: &[u64], i: u32) -> bool
    requires { i + 1 ≤ length values.now }
    ensures { result ≡ input_fits plan.now mask values.now i }
{
    let w = port_at(plan, i);
    (bit(mask, i) == 0) | (OUTPUT <= w) | within(slot(values, i), w)
}

fn inputs_fit(plan: &[u32], mask: u32, values: &[u64], n: u32) -> bool
    requires { n ≤ length values.now }
    ensures { result ≡ all_below plan.now n (input_fits plan.now mask values.now) }
{
    let mut ok = true;
    for i in 0..n {
        ok &= input_fits(plan, mask, values, i);
    }
    ok
}

// The bits of all cells.
fn together(cells: &[u64]) -> u64
    ensures { result ≡ fold bit_or 0 cells.now }
{
    cells.iter().fold(0, |bits, cell| bits | *cell)
}

// The cells of a memory fit its width: where all their bits together do.
fn memory_fits(plan: &[u32], memory: &[u64], m: u32) -> bool
    requires { cells_before plan.now m + memory_size_at plan.now m ≤ length memory.now }
    ensures { result ≡ memory_fits plan.now memory.now m }
{
    let first = cells_before(plan, m);
    let size = place(memory_size(plan, m));
    within(
        together(&memory[first..first + size]),
        memory_width(plan, m),
    )
}

fn memories_fit(plan: &[u32], memory: &[u64], n: u32) -> bool
    requires { cells_before plan.now n ≤ length memory.now }
    ensures { result ≡ all_below plan.now n (memory_fits plan.now memory.now) }
{
    let mut ok = true;
    for m in 0..n {
        ok &= memory_fits(plan, memory, m);
    }
    ok
}

// No mask bit past the ports, and what is present and what the cells hold fits.
pub fn fitting(plan: &[u32], mask: u32, values: &[u64], memory: &[u64]) -> bool
    requires { (length values.now ≡ port_count plan.now) × (length memory.now ≡ cells_before plan.now (memory_count plan.now)) }
    ensures { result ≡ tests_fitting plan.now mask values.now memory.now }
{
    let n = port_count(plan);
    within(u64::from(mask), n)
        & inputs_fit(plan, mask, values, n)
        & memories_fit(plan, memory, memory_count(plan))
}
