// Row 10 of document 01: the widths of an actor's ports and memories, by their types and the bindings.
// What comes in: the actor's text and tape, the bindings, and cells for the widths. What goes out: how
// many widths there are, the ports' in the order of the signature and then the memories', or that no widths satisfy every type.
#![tactic(auto)]

ghost use Rattle.std.specs.Prelude.{List, ◌+◌, ◌≤◌, length};
ghost use Rattle.language.specs.Limits.{limits};
ghost use Rattle.language.specs.Words.{Word};
ghost use Rattle.language.specs.Tree.{Actor};
ghost use Rattle.language.specs.Bindings.{Bindings};
ghost use Rattle.row10_widths.specs.Row.{Asked, SolvedTold};

use bindings::Bound;
use language::{Plan, Type};
use type_codes::want_code;
use type_nodes::declared;

const WORDS: usize = Type::WORDS as usize;

// As many widths as there may be ports and memories, and a slot of code for each.
const WIDTHS: usize = (Plan::PORTS + Plan::MEMORIES) as usize;

const NODES: usize = WIDTHS * WORDS;

// The least widths that satisfy every type: how many they are, or that none do.
pub fn solved(
    text: &[u8],
    tape: &[u32],
    n: usize,
    bound: Bound,
    widths: &mut [u32],
) -> Option<usize>
    requires n_in_bounds { (n ≤ length tape.now) × (limits.ports + limits.memories ≤ length widths.old) }
    requires asked { (ws : List Word) × (a : Actor) × (b : Bindings) × Asked text.now tape.now n bound ws a b }
    ensures { SolvedTold text.now tape.now n bound.entry result widths.old widths.new }
{
    let mut code = [0u32; NODES];
    let mut starts = [0usize; WIDTHS];
    let mut ends = [0usize; WIDTHS];
    let c = declared(tape, n);
    let ports = c.ports;
    let all = ports + c.memories;
    for i in 0..all {
        starts[i] = WORDS * i;
        ends[i] = WORDS * i + want_code(text, tape, n, bound, ports, i, &mut code);
    }
    typing::solve(&code, &starts[..all], &ends[..all], &mut widths[..all]).then_some(all)
}
