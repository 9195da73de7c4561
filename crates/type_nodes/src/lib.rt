// What an item of the tape is to the declared types, and the node of a type that it stands for.
// What comes in: the tape, with its text and the bindings for its names. What goes out: an item's role and node,
// how many ports and memories are declared, and where the type that is sought ends.
#![tactic(auto)]

ghost use Rattle.std.specs.Prelude.{◌≡◌, ◌+◌, ◌-◌, ◌*◌, ◌/◌, ◌≤◌, ◌<◌, length, take};
ghost use Rattle.language.specs.Limits.{limits};
ghost use Rattle.language.specs.Text.{index};
ghost use Rattle.placed.specs.Placed.{name_from};
ghost use Rattle.type_nodes.specs.Codes.{outside_of, role_of, is_over, tally, counted_of, counts_over, env_in, signed_names, value_or, number_node, node_at, stops_at, left_of, kept_of};

use bindings::Bound;
use language::Type;
use row09_bindings::found;
use tape::{
    CEIL, DECLARED, ENVIRONMENT, FLOOR, LOG, MEMORY, MINUS, NUMBER, Node, OR, PLUS, PORT, SIGNED,
    SIZE, node_of,
};

// What an item is to the declared types.
#[derive(Clone, Copy)]
pub enum Role {
    // A node of a type; what stands in a declaration and is no node.
    Node,
    Keep,
    Signed,
    Declared,
    Memory,
    // Past the declarations.
    Over,
    Clear,
}

// Whose type is sought: the port whose name stands at a place, or a memory by its index.
#[derive(Clone, Copy)]
pub enum Goal {
    Port(usize),
    Memory(usize),
}

// The ports of the signature, and the memories.
#[derive(Clone, Copy)]
pub struct Counts {
    pub ports: usize,
    pub memories: usize,
}

// What an item that stands in no type is to the declared types.
fn outside(op: u32) -> Role
    ensures { result ≡ outside_of op }
{
    match op {
        OR => Role::Over,
        DECLARED => Role::Declared,
        MEMORY => Role::Memory,
        SIZE => Role::Keep,
        SIGNED => Role::Signed,
        _ => Role::Clear,
    }
}

pub fn role_of(op: u32) -> Role
    ensures { result ≡ role_of op }
{
    match node_of(op) {
        Node::Most | Node::Within => Role::Keep,
        Node::Other => outside(op),
        _ => Role::Node,
    }
}

// How many ports and memories are declared.
pub fn declared(tape: &[u32], n: usize) -> Counts
    requires { n ≤ length tape.now }
    ensures { result ≡ counts_over (tally 0 0) (take n tape.now) }
{
    let mut c = Counts {
        ports: 0,
        memories: 0,
    };
    for i in 0..n / 3 {
        let role = role_of(tape[3 * i]);
        if is_over(role) {
            return c;
        }
        c = counted(c, role);
    }
    c
}

fn is_over(role: Role) -> bool
    ensures { result ≡ is_over role }
{
    matches!(role, Role::Over)
}

fn counted(c: Counts, role: Role) -> Counts
    requires { (c.ports < 18446744073709551615) × (c.memories < 18446744073709551615) }
    ensures { (result ≡ counted_of c role) × (result.ports ≤ c.ports + 1) × (result.memories ≤ c.memories + 1) }
{
    match role {
        Role::Signed => Counts {
            ports: c.ports + 1,
            memories: c.memories,
        },
        Role::Memory => Counts {
            ports: c.ports,
            memories: c.memories + 1,
        },
        _ => c,
    }
}

// A number as a node: row 8 has passed, so it is never over its limit.
pub fn number_node(x: u32) -> u32
    ensures { result ≡ number_node x }
{
    x % (Type::NUMBER + 1) * 8
}

// The port of the signature that has the name at a place; past the last one where none has.
fn port_index(text: &[u8], tape: &[u32], ports: usize, place: usize) -> usize
    requires { 3 * ports + 3 ≤ length tape.now }
    ensures { (result ≡ index (signed_names text.now tape.now 1 ports) (name_from text.now place)) × (result ≤ ports) }
{
    for i in 0..ports {
        if tape::same_name(text, tape[3 * (i + 1) + 1] as usize, place) {
            return i;
        }
    }
    ports
}

// The value of line i before the end of its section, or 0.
fn value_at(table: &[u32], i: usize, end: usize) -> u32
    requires { 3 * end ≤ length table.now }
    ensures { result ≡ value_or table.now i end }
{
    if i < end { table[3 * i + 2] } else { 0 }
}

// The node of an item.
pub fn node(text: &[u8], tape: &[u32], bound: Bound, ports: usize, i: usize) -> u32
    requires { (3 * i + 2 < length tape.now) × (3 * ports + 3 ≤ length tape.now) × (ports ≤ limits.ports) }
    ensures { result ≡ node_at (env_in text.now tape.now bound.entry ports) tape.now i }
{
    let place = tape[3 * i + 1] as usize;
    match tape[3 * i] {
        NUMBER => number_node(tape[3 * i + 2]),
        ENVIRONMENT => {
            let end = bound.end();
            let line = found(text, place, bound, bound.lines.widths, end);
            number_node(value_at(bound.table, line, end))
        }
        PORT => port_index(text, tape, ports, place) as u32 * 8 + 1,
        LOG => 2,
        FLOOR => 3,
        CEIL => 4,
        PLUS => 5,
        MINUS => 6,
        _ => 7,
    }
}

// Whether what is sought ends at an item.
pub fn stops(text: &[u8], goal: Goal, role: Role, place: usize) -> bool
    ensures { result ≡ stops_at text.now goal role place }
{
    match (role, goal) {
        (Role::Over, _) => true,
        (Role::Declared, Goal::Port(p)) => tape::same_name(text, place, p),
        (Role::Memory, Goal::Memory(i)) => i == 0,
        _ => false,
    }
}

// What is left to seek after a memory.
pub fn left(goal: Goal, role: Role) -> Goal
    ensures { result ≡ left_of goal role }
{
    match (role, goal) {
        (Role::Memory, Goal::Memory(i)) => Goal::Memory(i.saturating_sub(1)),
        _ => goal,
    }
}

pub fn kept(role: Role, len: usize) -> usize
    ensures { result ≡ kept_of role 0 len }
{
    if is_over(role) { 0 } else { len }
}
