// Row 11's walk as definitions (specs/), and the parts of it that stand alone: how an effect is put together, what the items do
// that end a statement, and how far the walk is after an item. What comes in: widths, first bytes and operands. What goes out:
// what an item does, as a value; where the walk stands next.
#![tactic(auto)]

mod effects;
mod statements;
mod turns;

pub use effects::{ends, faulty, gives, tested};
use plan::Item;
pub use statements::{assign, typed, val, write};
pub use turns::onward;

// What has no width: a fault is inside it. A number and no `None`: it stands in the definition's list of widths (`State`).
pub const FAULTY: u32 = 99;

// An expression that waits: its width and its first byte.
#[derive(Clone, Copy)]
pub struct Waiting {
    pub width: u32,
    pub start: u32,
}

// What an item does: how many expressions it takes, the one that it leaves, if it leaves one, its fault, and the item of the
// plan's that it adds to the code, if it adds one.
#[derive(Clone, Copy)]
pub struct Effect {
    pub takes: usize,
    pub leaves: Option<Waiting>,
    pub fault: Option<u32>,
    pub emits: Option<Item>,
}

// What an item goes by: the widths and first bytes of the latest three expressions that wait, the latest first; the width
// before a constant's digits and its place; how many cases stand around; the width that a slot holds.
#[derive(Clone, Copy)]
pub struct Seen {
    pub x: u32,
    pub y: u32,
    pub z: u32,
    pub s: u32,
    pub t: u32,
    pub u: u32,
    pub breadth: u32,
    pub start: u32,
    pub cases: u32,
    pub held: u32,
}

// How far the walk is: expressions that wait, numbers of code, the earliest fault, a constant's width and its place, cases
// around, rules ended, and the code before this rule.
#[derive(Clone, Copy)]
pub struct Far {
    pub waits: usize,
    pub out: usize,
    pub first: Option<u32>,
    pub breadth: u32,
    pub start: u32,
    pub cases: u32,
    pub rules: usize,
    pub rule: usize,
}
