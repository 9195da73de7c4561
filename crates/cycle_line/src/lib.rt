// The line that is written for a cycle: its answer, and where it is 0 the number of present ports and the outputs.
// What comes in: a plan, a cycle's answer and outputs, a table of bytes with room for a line, and a place in it.
// What goes out: the line's bytes from that place on, and the place after them.
#![tactic(auto)]

ghost use Rattle.std.specs.Prelude.{◌≡◌, ◌+◌, ◌≤◌, length};
ghost use Rattle.language.specs.Limits.{limits};
ghost use Rattle.figures.specs.Written.{Wrote, blanked, number_bytes};
ghost use Rattle.cycle_line.specs.Shown.{ports_of, output_of, outputs_from, shown_of, line_bytes, outputs_bytes};

use figures::{next_number, number, put};
use plan::{port_at, port_count};

const OUTPUT: u32 = plan::OUTPUT;

const PORTS: u32 = language::Plan::PORTS;

// The ports of the plan, as many as the table has room for.
#[tactic(auto, unfolding(crate::specs::Shown::ports_of))]
pub fn ports(plan: &[u32]) -> u32
    ensures { (result ≡ ports_of plan.now) × (result ≤ limits.ports) }
{
    port_count(plan).min(PORTS)
}

// A port's value after a blank, if it is an output.
fn show_output(kind: u32, value: u64, out: &mut [u8], at: usize) -> usize
    requires { at + number_bytes ≤ length out.old }
    ensures { Wrote out.old at (output_of kind value) number_bytes result out.new }
{
    if kind < OUTPUT {
        return at;
    }
    next_number(out, at, value)
}

// The outputs, each after a blank.
fn show_outputs(plan: &[u32], outputs: &[u64], out: &mut [u8], at: usize) -> usize
    requires { (limits.ports ≤ length outputs.now) × (at + outputs_bytes ≤ length out.old) }
    ensures { Wrote out.old at (blanked (outputs_from plan.now outputs.now (ports_of plan.now) 0)) outputs_bytes result out.new }
{
    let mut k = at;
    for i in 0..ports(plan) {
        k = show_output(port_at(plan, i), outputs[i as usize], out, k);
    }
    k
}

// The line of a cycle: its answer; if that is 0 the number of present ports and the outputs too.
#[tactic(auto, using(crate::proofs::Cycles::refused_long, crate::proofs::Cycles::refused_sets))]
pub fn show(
    plan: &[u32],
    answer: u32,
    present: u32,
    outputs: &[u64],
    out: &mut [u8],
    at: usize,
) -> usize
    requires { (limits.ports ≤ length outputs.now) × (at + line_bytes ≤ length out.old) }
    ensures { Wrote out.old at (shown_of plan.now answer present outputs.now) line_bytes result out.new }
{
    let k = number(out, at, u64::from(answer));
    if answer != 0 {
        return put(out, k, 10);
    }
    let m = next_number(out, k, u64::from(present));
    let e = show_outputs(plan, outputs, out, m);
    put(out, e, 10)
}
