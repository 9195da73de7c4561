// Settled items: an actor with its names and types settled, six numbers an item (specs/Form.antt), as a definition of the actor
// (specs/Settled.antt). What comes in: nothing. What goes out: the items' operations, each once; `settle` writes such items,
// rows 11 to 13 go by them.
#![tactic(auto)]

mod numbers;

pub use numbers::{
    AMOUNT, ARM, ASSIGN, BESIDE, BIG, BINARY, BITS, CELL, CHOICE, COPIES, EITHER, HELD, JOINED,
    MEMORY, OR, OUTSIDE, PLAIN, PRESENT, RANGE, READ, RULE, RULED, SELECT, SELECTED, SIGNED, START,
    TYPED, UNARY, VAL, WRITE, all,
};

// The most settled items: one at most for each item of a tape, which has one at most for each byte of its text.
pub const ITEMS: usize = language::Actor::BYTES as usize;

// Every operation under the name by which specs/ cites it.
#[derive(Clone, Copy)]
pub struct Operations {
    pub bits: u32,
    pub big: u32,
    pub amount: u32,
    pub plain: u32,
    pub copies: u32,
    pub read: u32,
    pub cell: u32,
    pub held: u32,
    pub range: u32,
    pub start: u32,
    pub joined: u32,
    pub beside: u32,
    pub unary: u32,
    pub binary: u32,
    pub choice: u32,
    pub either: u32,
    pub select: u32,
    pub selected: u32,
    pub arm: u32,
    pub assign: u32,
    pub write: u32,
    pub typed: u32,
    pub val: u32,
    pub present: u32,
    pub rule: u32,
    pub ruled: u32,
    pub or: u32,
    pub memory: u32,
    pub signed: u32,
    pub outside: u32,
}
