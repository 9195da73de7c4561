// What all readers of words share: the table of words that they look at, the tape that they put items on, where they came to.
// What comes in: words whose names are marked, and a tape. What goes out: a word's kind and numbers, marks of names,
// levels of operators; an item on the tape.
// The readers of lists loop by `while` or `loop`: no index is counted there, a turn goes on to the word that the reader answers.
// They are not one function with the item's reader as its parameter. Tried: it proves, and is no plainer; two lines of each loop are
// its own, the kind of word that it looks for and the item, and a generic loop's clause (a chain of `F.post`) is longer than the loops.
#![tactic(auto)]

mod items;
mod look;

pub use items::Items;
pub use look::{
    arm_ends, expect, kind, level, long, memory, place, prefix, sum, the_p, the_type, value,
};

// The words, four numbers each and at most one for each byte of the text, and behind them how many there are.
pub const COUNT: usize = 4 * language::Actor::BYTES as usize;

pub type Table = [u32; COUNT + 1];

// Room for an item of each word.
pub type Tape = [u32; tape::LENGTH];

// The marks of names, in the fourth number of their words: those spelled `p` and `type`, and so much more among the memories.
pub const IS_P: u32 = 1;

pub const IS_TYPE: u32 = 2;

pub const IS_MEMORY: u32 = 4;

// All operators have a level below this one.
pub const LOOSEST: u32 = 9;

// The index of the first word that does not fit.
#[derive(Clone, Copy)]
pub struct Misfit {
    pub at: usize,
}
