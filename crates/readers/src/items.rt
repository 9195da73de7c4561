// What the readers put on the tape: an item is an operation, a place and a value.
ghost use Rattle.std.specs.Prelude.{[], ◌∷◌, ◌+◌, ◌≤◌};
ghost use Rattle.tape.specs.Tape.{longest, item, UNARY, BINARY};
ghost use Rattle.readers.specs.Marks.{place_at, unary_of, binary_of};
ghost use Rattle.readers.specs.Meets.{Within, On};

use crate::look::{binary_number, place, unary_number};
use crate::{Table, Tape};
use tape::{BINARY, UNARY};

// The items that are on a tape so far, and how many numbers they are.
#[derive(Drop)]
pub struct Items {
    pub tape: Tape,
    pub n: usize,
}

impl Items {
    // An item of three numbers, after those that are there.
    fn push(&mut self, op: u32, at: u32, v: u32)
        requires { self.old.n + 3 ≤ longest }
        ensures { On self.old.tape self.old.n (op ∷ at ∷ v ∷ []) self.new.n self.new.tape }
    {
        self.tape[self.n..self.n + 3].copy_from_slice(&[op, at, v]);
        self.n += 3;
    }

    // An item with no place.
    pub fn emit(&mut self, op: u32, v: u32)
        requires { self.old.n + 3 ≤ longest }
        ensures { On self.old.tape self.old.n (op ∷ 0 ∷ v ∷ []) self.new.n self.new.tape }
    {
        self.push(op, 0, v);
    }

    // An item with the place of a word.
    pub fn put(&mut self, words: &Table, at: usize, op: u32, v: u32)
        requires n_bound { self.old.n + 3 ≤ longest }
        requires within { Within words.now at }
        ensures { On self.old.tape self.old.n (op ∷ place_at words.now at ∷ v ∷ []) self.new.n self.new.tape }
    {
        self.push(op, place(words, at), v);
    }

    // The item of an operator before its operand, by the kind of its word.
    pub fn unary_item(&mut self, words: &Table, at: usize, k: u32)
        requires n_bound { self.old.n + 3 ≤ longest }
        requires within { Within words.now at }
        ensures { On self.old.tape self.old.n (item UNARY (place_at words.now at) (unary_of k)) self.new.n self.new.tape }
    {
        self.put(words, at, UNARY, unary_number(k));
    }

    // The item of an operator between two operands, by the kind of its word.
    pub fn binary_item(&mut self, k: u32)
        requires { self.old.n + 3 ≤ longest }
        ensures { On self.old.tape self.old.n (item BINARY 0 (binary_of k)) self.new.n self.new.tape }
    {
        self.emit(BINARY, binary_number(k));
    }
}
