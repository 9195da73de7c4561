// The types that wait: their nodes stand one after the other in one code, and a table says where each type starts.
ghost use Rattle.tape.specs.Tape.{most_items};
ghost use Rattle.std.specs.Prelude.{◌≡◌, List, ℕ, ◌+◌, ◌-◌, ◌*◌, ◌≤◌, ◌<◌, length};
ghost use Rattle.language.specs.Types.{width_of, position_of};
ghost use Rattle.type_value.specs.Walk.{value_of};
ghost use Rattle.settled.specs.Settled.{placed};
ghost use Rattle.looked_up.specs.Lookup.{operand};
ghost use Rattle.item_writes.specs.Walk.{leaf as leaf_of, without as without_of, latest as latest_of};
ghost use Rattle.item_writes.specs.Tables.{Ordered, waits_in, begins_at, Left, Grew, Grown};

use crate::{Given, Grows, Waits};
use looked_up::{narrow, numbered, value};
use tape::{CEIL, ENTRY, ENVIRONMENT, FLOOR, LOG, MINUS, NUMBER, PLUS, PORT, SIGNED};

// A node's number, where 32 bits hold it: a leaf of 0 else.
#[tactic(auto, unfolding(crate::specs::Walk::leaf, crate::specs::Walk::when))]
fn leaf(k: usize) -> u32
    ensures { result ≡ leaf_of k }
{
    u32::try_from(k).unwrap_or(0)
}

// What an item does to the types that wait.
pub fn growth(given: Given, i: usize) -> Grows
    requires { i < given.many }
    ensures { Grown result given.entry i }
{
    let tape = given.tape;
    let place = tape[3 * i + 1];
    match tape[3 * i] {
        NUMBER => Grows::Leaf(leaf(tape[3 * i + 2] as usize * 8)),
        ENVIRONMENT => {
            let x = value(given.text, place as usize, given.bound);
            Grows::Leaf(leaf(x as usize * 8))
        }
        PORT => Grows::Leaf(leaf(numbered(given.text, tape, given.many, SIGNED, place) * 8 + 1)),
        LOG => Grows::End(2),
        FLOOR => Grows::End(3),
        CEIL => Grows::End(4),
        PLUS => Grows::Join(5),
        MINUS => Grows::Join(6),
        ENTRY => Grows::Join(7),
        _ => Grows::Nothing,
    }
}

// Where the n-th type that waits starts; the end of the nodes where fewer wait.
#[tactic(auto, unfolding(crate::specs::Tables::begins_at, crate::specs::Walk::when))]
fn begins(starts: &[usize], w: Waits, n: usize) -> usize
    requires { w.types ≤ length starts.now }
    ensures { result ≡ begins_at starts.now w n }
{
    if n < w.types { starts[n] } else { w.nodes }
}

// The types that wait without the latest k.
pub fn without(starts: &[usize], w: Waits, k: usize) -> Waits
    requires { (w.types ≤ length starts.now) × Ordered starts.now w.types w.nodes }
    ensures { Left starts.now w result × ((code : List ℕ) → waits_in code starts.now result ≡ without_of k (waits_in code starts.now w)) }
{
    let n = w.types.saturating_sub(k);
    Waits {
        types: n,
        nodes: begins(starts, w, n),
    }
}

// The tables after what an item does to the types that wait.
pub fn grow(g: Grows, w: Waits, code: &mut [u32], starts: &mut [usize]) -> Waits
    requires { (w.types < length starts.old) × (w.nodes < length code.old) × Ordered starts.old w.types w.nodes }
    ensures { Grew g code.old starts.old w code.new starts.new result }
{
    let types = w.types;
    let nodes = w.nodes;
    match g {
        Grows::Nothing => w,
        Grows::Leaf(k) => {
            starts[types] = nodes;
            code[nodes] = k;
            Waits {
                types: types + 1,
                nodes: nodes + 1,
            }
        }
        Grows::End(k) => {
            if types < 1 {
                return w;
            }
            code[nodes] = k;
            Waits {
                types,
                nodes: nodes + 1,
            }
        }
        Grows::Join(k) => {
            if types < 2 {
                return w;
            }
            code[nodes] = k;
            Waits {
                types: types - 1,
                nodes: nodes + 1,
            }
        }
    }
}

// The width that the latest type comes to, as an operand.
pub fn width(code: &[u32], starts: &[usize], widths: &[u32], w: Waits) -> u32
    requires { (w.types ≤ length starts.now) × (w.nodes ≤ length code.now) }
    ensures { result ≡ operand (width_of (value_of widths.now (latest_of (waits_in code.now starts.now w)))) }
{
    let from = begins(starts, w, w.types.saturating_sub(1));
    narrow(type_value::width_at(code, from, w.nodes, widths) as usize)
}

// The position that the latest type comes to, as an operand.
pub fn position(code: &[u32], starts: &[usize], widths: &[u32], w: Waits) -> u32
    requires { (w.types ≤ length starts.now) × (w.nodes ≤ length code.now) }
    ensures { result ≡ operand (placed (position_of (value_of widths.now (latest_of (waits_in code.now starts.now w))))) }
{
    let from = begins(starts, w, w.types.saturating_sub(1));
    match type_value::position_at(code, from, w.nodes, widths) {
        Some(p) => narrow(p as usize),
        None => settled::OUTSIDE,
    }
}
