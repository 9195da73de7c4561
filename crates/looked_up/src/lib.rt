// What a name stands for, by number: ports in the order of the signature, memories and `val`s in their own, lines of the bindings.
// What comes in: a text and its tape, a name or its place; the bindings. What goes out: where the name
// stands among those of its kind, or how many they are where it does not; sizes, widths and values by such numbers.
#![tactic(auto)]

ghost use Rattle.tape.specs.Tape.{most_items};
ghost use Rattle.std.specs.Prelude.{◌≡◌, List, ℕ, ◌+◌, ◌-◌, ◌*◌, ◌≤◌, ◌<◌, length, get_or, take};
ghost use Rattle.language.specs.Text.{index};
ghost use Rattle.language.specs.Widths.{value_in};
ghost use Rattle.placed.specs.Placed.{name_from};
ghost use Rattle.tape.specs.Walk.{between};
ghost use Rattle.tape.specs.declared.Class.{Class};
ghost use Rattle.row09_bindings.specs.Lines.{lines_on};
ghost use Rattle.looked_up.specs.Lookup.{operand, named, size_before, sizes_on, sum_of};

use bindings::Bound;
use tape::{MEMORY, SIZE, VAL, name};

// A number as an operand: what 32 bits do not hold is outside.
#[tactic(auto, unfolding(crate::specs::Lookup::operand))]
pub fn narrow(n: usize) -> u32
    ensures { result ≡ operand n }
{
    u32::try_from(n).unwrap_or(settled::OUTSIDE)
}

// The width of a port or memory by its number; 0 where there is none.
pub fn width_of(widths: &[u32], k: usize) -> u32
    ensures { result ≡ get_or widths.now k 0 }
{
    widths.get(k).copied().unwrap_or(0)
}

// Where a name stands among those of the items of an operation; how many they are where it does not.
fn number(text: &[u8], tape: &[u32], many: usize, op: u32, called: &[u8]) -> usize
    requires { 3 * many ≤ length tape.now }
    ensures { result ≡ index (named text.now tape.now op 0 many) called.now }
{
    let mut k = 0;
    for i in 0..many {
        if tape[3 * i] == op {
            let at = tape[3 * i + 1] as usize;
            if spelling::same_bytes(name(text, at), called) {
                return k;
            }
            k += 1;
        }
    }
    k
}

// The number of the name at a place, among those of the items of an operation.
pub fn numbered(text: &[u8], tape: &[u32], many: usize, op: u32, place: u32) -> usize
    requires { 3 * many ≤ length tape.now }
    ensures { (result ≡ index (named text.now tape.now op 0 many) (name_from text.now place)) × (result ≤ many) }
{
    number(text, tape, many, op, name(text, place as usize))
}

// How many items have an operation.
pub fn count(tape: &[u32], many: usize, op: u32) -> usize
    requires { 3 * many ≤ length tape.now }
    ensures { (result ≤ many) × ((text : List ℕ) → result ≡ length (named text tape.now op 0 many)) }
{
    let mut k = 0;
    for i in 0..many {
        if tape[3 * i] == op {
            k += 1;
        }
    }
    k
}

// How many `val`s, from one item on and before another, came after the latest one of a name; how many they are where none has it.
pub fn latest(text: &[u8], tape: &[u32], from: usize, to: usize, called: &[u8]) -> usize
    requires { (from ≤ to) × (3 * to ≤ length tape.now) }
    ensures { result ≡ index (between text.now tape.now Class.Val from to) called.now }
{
    let mut k = 0;
    for i in (from..to).rev() {
        if tape[3 * i] == VAL {
            let at = tape[3 * i + 1] as usize;
            if spelling::same_bytes(name(text, at), called) {
                return k;
            }
            k += 1;
        }
    }
    k
}

// The value of the environment name at a place, by the lines of the bindings; 0 where none has it.
pub fn value(text: &[u8], place: usize, bound: Bound) -> u32
    ensures { result ≡ value_in (lines_on bound.entry.text.now bound.entry.table.now bound.entry.lines.widths bound.entry.lines.values) (name_from text.now place) }
{
    let to = bound.end();
    let i = row09_bindings::found(text, place, bound, bound.lines.widths, to);
    if i < to { bound.table[3 * i + 2] } else { 0 }
}

// The size that the item before i gives; 1 where it gives none.
// No twin of row07_limits::size_before: that one answers with the place of the size and with nothing where none stands.
#[tactic(auto, using(crate::proofs::Numbers::size_given_law, crate::proofs::Numbers::size_one), unfolding(crate::specs::Lookup::size_before))]
fn size_before(tape: &[u32], i: usize) -> u32
    requires { 3 * i ≤ length tape.now }
    ensures { result ≡ size_before tape.now i }
{
    if 0 < i && tape[3 * (i - 1)] == SIZE {
        tape[3 * (i - 1) + 2]
    } else {
        1
    }
}

// The cells of the first k memories together.
pub fn cells_before(tape: &[u32], many: usize, k: usize) -> usize
    requires { (3 * many ≤ length tape.now) × (many ≤ most_items) }
    ensures { result ≡ sum_of (take k (sizes_on tape.now 0 many)) }
{
    let mut sum = 0;
    let mut left = k;
    for i in 0..many {
        if left == 0 {
            return sum;
        }
        if tape[3 * i] == MEMORY {
            sum += size_before(tape, i) as usize;
            left -= 1;
        }
    }
    sum
}

// The size of a memory by its number; 0 where there is none.
pub fn size_of(tape: &[u32], many: usize, k: usize) -> u32
    requires { 3 * many ≤ length tape.now }
    ensures { result ≡ get_or (sizes_on tape.now 0 many) k 0 }
{
    let mut left = k;
    for i in 0..many {
        if tape[3 * i] == MEMORY {
            if left == 0 {
                return size_before(tape, i);
            }
            left -= 1;
        }
    }
    0
}
