// One item of the tape: what it writes and does is put into the tables.
ghost use Rattle.tape.specs.Tape.{most_items};
ghost use Rattle.std.specs.Prelude.{◌≡◌, ◌+◌, ◌*◌, ◌≤◌, ◌<◌, length};
ghost use Rattle.std.proofs.lemmas.List.Edits.{sets};
ghost use Rattle.laws.specs.Tables.{Kept};
ghost use Rattle.item_writes.specs.Tables.{numbers_of, beginning, lets_after, vals_after, size_after, state_of, Bounded, Roomy, around_in, turned};

use crate::items::takes;
use item_writes::writes::written;
use item_writes::{Far, Given, Waits, grow, growth, without};
use tape::{END, MEMORY, RULED, SIZE, VAL};

// Before the first item.
pub fn begin() -> Far
    ensures { result ≡ beginning }
{
    Far {
        waits: Waits { types: 0, nodes: 0 },
        out: 0,
        lets: 0,
        vals: 0,
        size: 1,
    }
}

// The numbers that an item writes, put after those before: how many they are then.
fn put(w: Option<[u32; 6]>, out: &mut [u32], at: usize) -> usize
    requires { at + 6 ≤ length out.old }
    ensures few { length (numbers_of w) ≤ 6 }
    ensures end { result ≡ at + length (numbers_of w) }
    ensures put { out.new ≡ sets out.old at (numbers_of w) }
{
    match w {
        Some(six) => {
            out[at..at + 6].copy_from_slice(&six);
            at + 6
        }
        None => at,
    }
}

// From which item on the `let`s in force stand, after item i.
#[tactic(auto, unfolding(item_writes::specs::Tables::lets_after, item_writes::specs::Walk::when))]
fn lets_after(op: u32, i: usize, lets: usize) -> usize
    requires { i < most_items }
    ensures { result ≡ lets_after op i lets }
{
    match op {
        END | RULED => i + 1,
        _ => lets,
    }
}

// The `val`s of this rule so far.
#[tactic(auto, unfolding(item_writes::specs::Tables::vals_after, item_writes::specs::Walk::when))]
fn vals_after(op: u32, vals: usize) -> usize
    requires { vals ≤ most_items }
    ensures { result ≡ vals_after op vals }
{
    match op {
        VAL => vals + 1,
        RULED => 0,
        _ => vals,
    }
}

// The size for the next memory.
#[tactic(auto, unfolding(item_writes::specs::Tables::size_after, item_writes::specs::Walk::when))]
fn size_after(op: u32, value: u32, size: u32) -> u32
    ensures { result ≡ size_after op value size }
{
    match op {
        SIZE => value,
        MEMORY => 1,
        _ => size,
    }
}

// Item i, in the tables.
pub fn step(
    given: Given,
    i: usize,
    code: &mut [u32],
    starts: &mut [usize],
    out: &mut [u32],
    far: Far,
) -> Far
    requires { Roomy given code.old starts.old out.old i far }
    ensures bounded { Bounded starts.new (i + 1) result }
    ensures kept { Kept far.out result.out out.old out.new }
    ensures state { let g = given.entry in
        let s = state_of g.text.now g.tape.now code.old starts.old out.old i far in
        state_of g.text.now g.tape.now code.new starts.new out.new (i + 1) result ≡ turned (around_in g) s g.tape.now i }
{
    let op = given.tape[3 * i];
    let v = given.tape[3 * i + 2];
    let w = written(given, i, code, starts, far);
    let g = growth(given, i);
    let left = without(starts, far.waits, takes(op, v) as usize);
    let grown = grow(g, left, code, starts);
    Far {
        waits: grown,
        out: put(w, out, far.out),
        lets: lets_after(op, i, far.lets),
        vals: vals_after(op, far.vals),
        size: size_after(op, v, far.size),
    }
}
