// The types of an actor in code, each node after its operands, as `typing` reads them.
// What comes in: the tape, with its text and the bindings for its names.
// What goes out: the nodes of each wanted width, in a slot of its own.
#![tactic(auto)]

ghost use Rattle.std.specs.Prelude.{[], ◌∷◌, ◌++◌, ◌+◌, ◌-◌, ◌*◌, ◌/◌, ◌≤◌, ◌<◌, length, take, drop};
ghost use Rattle.language.specs.Limits.{limits};
ghost use Rattle.type_nodes.specs.Codes.{env_in, number_node, node_at, capped, grown_of, sought_in, some_nodes, port_nodes, want_nodes, Filled};

use bindings::Bound;
use language::Type;
use row09_bindings::found;
use type_nodes::{Goal, Role, kept, left, node, number_node, role_of, stops};

const WORDS: usize = Type::WORDS as usize;

// One node more in a slot, as far as it reaches: row 7 has passed, so it is never full.
fn append(code: &mut [u32], at: usize, len: usize, x: u32) -> usize
    requires { (len ≤ limits.typeWords) × (at + limits.typeWords ≤ length code.old) }
    ensures { Filled code.old code.new at result (capped (take len (drop at code.old) ++ (x ∷ []))) }
{
    if len < WORDS {
        code[at + len] = x;
        return len + 1;
    }
    len
}

// The nodes of the type that is sought, in the slot at a place: how many.
fn type_code(
    text: &[u8],
    tape: &[u32],
    n: usize,
    bound: Bound,
    ports: usize,
    goal: Goal,
    code: &mut [u32],
    at: usize,
) -> usize
    requires n_in_bounds { (n ≤ length tape.now) × (3 * ports + 3 ≤ length tape.now) × (ports ≤ limits.ports) }
    requires type_words_in_bounds { at + limits.typeWords ≤ length code.old }
    ensures { let e = env_in text.now tape.now bound.entry ports in
        Filled code.old code.new at result (sought_in e goal [] (take n tape.now)) }
{
    let mut g = goal;
    let mut len = 0;
    for i in 0..n / 3 {
        let role = role_of(tape[3 * i]);
        if stops(text, g, role, tape[3 * i + 1] as usize) {
            return kept(role, len);
        }
        len = grown(text, tape, bound, ports, i, role, code, at, len);
        g = left(g, role);
    }
    0
}

// The slot after one more item.
fn grown(
    text: &[u8],
    tape: &[u32],
    bound: Bound,
    ports: usize,
    i: usize,
    role: Role,
    code: &mut [u32],
    at: usize,
    len: usize,
) -> usize
    requires i_in_bounds { (3 * i + 2 < length tape.now) × (3 * ports + 3 ≤ length tape.now) × (ports ≤ limits.ports) }
    requires len_le_type_words { (len ≤ limits.typeWords) × (at + limits.typeWords ≤ length code.old) }
    ensures { let e = env_in text.now tape.now bound.entry ports in
        Filled code.old code.new at result (grown_of role (take len (drop at code.old)) (node_at e tape.now i)) }
{
    match role {
        Role::Node => append(code, at, len, node(text, tape, bound, ports, i)),
        Role::Keep => len,
        _ => 0,
    }
}

// A single number in a slot.
fn single(code: &mut [u32], at: usize, x: u32) -> usize
    requires { at + limits.typeWords ≤ length code.old }
    ensures { Filled code.old code.new at result (number_node x ∷ []) }
{
    append(code, at, 0, number_node(x))
}

// A slot that is not empty: where there is no type, the number 0.
fn some(code: &mut [u32], at: usize, len: usize) -> usize
    requires { (len ≤ limits.typeWords) × (at + limits.typeWords ≤ length code.old) }
    ensures { Filled code.old code.new at result (some_nodes (take len (drop at code.old))) }
{
    if len == 0 {
        return single(code, at, 0);
    }
    len
}

// The nodes of the width that is wanted of the port with the name at a place.
fn port_code(
    text: &[u8],
    tape: &[u32],
    n: usize,
    bound: Bound,
    ports: usize,
    place: usize,
    code: &mut [u32],
    at: usize,
) -> usize
    requires n_in_bounds { (n ≤ length tape.now) × (3 * ports + 3 ≤ length tape.now) × (ports ≤ limits.ports) }
    requires type_words_in_bounds { at + limits.typeWords ≤ length code.old }
    ensures { let e = env_in text.now tape.now bound.entry ports in
        Filled code.old code.new at result (port_nodes e n place) }
{
    let widths = bound.lines.widths;
    let j = found(text, place, bound, 0, widths);
    if j < widths {
        return single(code, at, bound.table[3 * j + 2]);
    }
    let len = type_code(text, tape, n, bound, ports, Goal::Port(place), code, at);
    some(code, at, len)
}

// The nodes of the width that is wanted of port or memory i, in its slot: how many.
pub fn want_code(
    text: &[u8],
    tape: &[u32],
    n: usize,
    bound: Bound,
    ports: usize,
    i: usize,
    code: &mut [u32],
) -> usize
    requires n_in_bounds { (n ≤ length tape.now) × (3 * ports + 3 ≤ length tape.now) × (ports ≤ limits.ports) }
    requires type_words_in_bounds { limits.typeWords * i + limits.typeWords ≤ length code.old }
    ensures { let e = env_in text.now tape.now bound.entry ports in
        Filled code.old code.new (limits.typeWords * i) result (want_nodes e n i) }
{
    let at = WORDS * i;
    if i < ports {
        let place = tape[3 * (i + 1) + 1] as usize;
        return port_code(text, tape, n, bound, ports, place, code, at);
    }
    let len = type_code(
        text,
        tape,
        n,
        bound,
        ports,
        Goal::Memory(i - ports),
        code,
        at,
    );
    some(code, at, len)
}
