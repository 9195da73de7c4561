// A cycle's line: its numbers, the cycle, and the line that is written for it.
ghost use Rattle.std.specs.Prelude.{◌≡◌, ◌<◌, ◌≤◌, length, take, IfSome};
ghost use Rattle.language.specs.Limits.{limits};
ghost use Rattle.input_bytes.specs.Lines.{cells_of, next_input, done_of, Ran, mask_after, values_after, turned_of, standing, number_ends, line_byte, Left, Roomy};

use cycle_line::{ports, show};
use figures::{Stage, State};
use plan::{cells_before, memory_count, port_at};
use turn::Done;

const OUTPUT: u32 = plan::OUTPUT;

const CELLS: usize = language::Plan::CELLS as usize;

// The plan, of which the state says how much of its table it is.
pub fn planned(plan: &[u32], n: usize) -> &[u32]
    ensures { result.now ≡ take n plan.now }
{
    &plan[..n.min(plan.len())]
}

// The cells of the plan, as many as the table has room for.
#[tactic(auto, unfolding(crate::specs::Lines::cells_of))]
pub fn cells(plan: &[u32]) -> usize
    ensures { (result ≡ cells_of plan.now) × (result ≤ limits.cells) }
{
    cells_before(plan, memory_count(plan)).min(CELLS)
}

// The first input from a port on.
fn next_input(plan: &[u32], from: u32) -> Option<u32>
    ensures found { result ≡ next_input plan.now from }
    ensures within { IfSome result (λ i. i < limits.ports) }
{
    for i in from..ports(plan) {
        if port_at(plan, i) < OUTPUT {
            return Some(i);
        }
    }
    None
}

// A cycle of the plan over the first places of the tables.
fn ran(plan: &[u32], mask: u32, values: &[u64], outputs: &mut [u64], memory: &mut [u64]) -> Done
    requires ports { limits.ports ≤ length values.now }
    requires slots { limits.ports ≤ length outputs.old }
    requires cells { limits.cells ≤ length memory.old }
    ensures { let made = done_of plan.now mask values.now outputs.old memory.old in
        Ran plan.now made outputs.old memory.old result outputs.new memory.new }
{
    let n = ports(plan) as usize;
    let m = cells(plan);
    cycle::cycle(
        plan,
        mask,
        &values[..n],
        &mut memory[..m],
        &mut outputs[..n],
    )
}

// The line is whole: the cycle is run, and its line written.
fn turned(
    s: State,
    mask: u32,
    plan: &[u32],
    values: &[u64],
    outputs: &mut [u64],
    memory: &mut [u64],
    out: &mut [u8],
) -> State
    requires { Roomy values.now outputs.old memory.old out.old s.at }
    ensures { let made = turned_of s mask plan.now values.now outputs.old memory.old in
        let after = standing result values.now outputs.new memory.new in
        Left made out.old s.at after out.new }
{
    let done = ran(plan, mask, values, outputs, memory);
    let k = show(plan, done.answer, done.present, outputs, out, s.at);
    State {
        stage: Stage::Line,
        number: None,
        left: s.left.saturating_sub(1),
        port: 0,
        mask,
        at: k,
        ..s
    }
}

// The mask, or a port's value, is kept.
#[tactic(auto, unfolding(crate::specs::Lines::mask_after, crate::specs::Lines::values_after))]
fn keep_value(s: State, n: u64, values: &mut [u64]) -> u32
    ensures { (result ≡ mask_after s n) × (values.new ≡ values_after s n values.old) }
{
    if s.port == 0 {
        return (n % 4294967296) as u32;
    }
    let i = s.port as usize - 1;
    if i < values.len() {
        values[i] = n;
    }
    s.mask
}

// A number of the line has ended: a blank before the next input's value, a newline after the last.
fn number_ends(
    s: State,
    n: u64,
    b: u8,
    plan: &[u32],
    values: &mut [u64],
    outputs: &mut [u64],
    memory: &mut [u64],
    out: &mut [u8],
) -> State
    requires { Roomy values.old outputs.old memory.old out.old s.at }
    ensures { let made = number_ends s n b plan.now values.old outputs.old memory.old in
        let after = standing result values.new outputs.new memory.new in
        Left made out.old s.at after out.new }
{
    match next_input(plan, s.port) {
        Some(i) => {
            if b != b' ' {
                return s.wrong();
            }
            let mask = keep_value(s, n, values);
            s.at_port(mask, i + 1)
        }
        None => {
            if b != b'\n' {
                return s.wrong();
            }
            let mask = keep_value(s, n, values);
            turned(s, mask, plan, values, outputs, memory, out)
        }
    }
}

// A byte of a cycle's line.
pub fn line_byte(
    s: State,
    b: u8,
    plan: &[u32],
    values: &mut [u64],
    outputs: &mut [u64],
    memory: &mut [u64],
    out: &mut [u8],
) -> State
    requires { Roomy values.old outputs.old memory.old out.old s.at }
    ensures { let made = line_byte s b plan.now values.old outputs.old memory.old in
        let after = standing result values.new outputs.new memory.new in
        Left made out.old s.at after out.new }
{
    if s.takes_in_line(b) {
        return s.longer(b);
    }
    match s.number {
        Some(n) => number_ends(s, n, b, planned(plan, s.plan), values, outputs, memory, out),
        None => s.wrong(),
    }
}
