// What one item of a tape does when an actor is settled (specs/Walk.antt): what it writes, and what it does to the types that wait.
// What comes in: the actor's text and tape, its bindings, the widths of its ports and memories, the types that wait in their
// tables. What goes out: nothing or six numbers; the types that wait after it.
#![tactic(auto)]

mod given;
mod nodes;
pub mod writes;

pub use given::Given;
pub use nodes::{grow, growth, without};

// The types that wait: how many, and how many nodes they have together.
#[derive(Clone, Copy)]
pub struct Waits {
    pub types: usize,
    pub nodes: usize,
}

// What an item does to the types that wait: a leaf begins one, a node of one operand ends the latest, one of two joins two.
// No Option of a node: a node alone doesn't tell how many types it takes, so there are four things that an item does.
#[derive(Clone, Copy)]
pub enum Grows {
    Nothing,
    Leaf(u32),
    End(u32),
    Join(u32),
}

// How far the walk is: the types that wait, the numbers written, from which item on the `let`s in force stand, the `val`s of
// this rule, the size for the next memory.
#[derive(Clone, Copy)]
pub struct Far {
    pub waits: Waits,
    pub out: usize,
    pub lets: usize,
    pub vals: usize,
    pub size: u32,
}
