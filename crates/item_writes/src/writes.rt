// What an item writes: nothing, or six numbers. Nothing is changed here.
ghost use Rattle.std.specs.Prelude.{◌≡◌, List, ℕ, ◌+◌, ◌*◌, ◌≤◌, ◌<◌, length};
ghost use Rattle.language.specs.Text.{index};
ghost use Rattle.language.specs.Widths.{value_in};
ghost use Rattle.sized_constants.specs.Constant.{amount_of};
ghost use Rattle.placed.specs.Placed.{name_from};
ghost use Rattle.tape.specs.Tape.{SIGNED, MEMORY, PRESENT, VAL, most_items};
ghost use Rattle.row09_bindings.specs.Lines.{lines_on};
ghost use Rattle.settled.specs.Form.{six};
ghost use Rattle.settled.specs.Settled.{amount as amount_numbers};
ghost use Rattle.looked_up.specs.Lookup.{operand, named};
ghost use Rattle.item_writes.specs.Walk.{port_out, memory_width_out, cell_out, signed_out};
ghost use Rattle.item_writes.specs.Tables.{Ordered, numbers_of, silent as silent_of, plain_out, Looked, Lent, Writes, Reads, WritesTyped};

use crate::nodes::{position, width, without};
use crate::{Far, Given, Waits};
use looked_up::{cells_before, count, latest, narrow, numbered, size_of, value, width_of};
use tape::{
    ACTOR, ASSIGN, BIT, BITS, CELL, Class, DECLARED, DEFAULT, END, GIVEN, GROUPED, INSIDE, LET,
    MEMORY, PRESENT, RANGE, READ, SIGNED, SIZE, TYPED, VAL, VALUE, WRITE, name, said,
};

// What the number of an output port has above its width.
const OUTPUT: usize = plan::OUTPUT as usize;

// A constant's value in two halves, where 64 bits hold it.
fn amount(place: u32, x: Option<u64>) -> Option<[u32; 6]>
    ensures { (n : ℕ) → x ≡ amount_of n → numbers_of result ≡ amount_numbers place n }
{
    match x {
        Some(n) => Some([
            settled::AMOUNT,
            place,
            (n % 4294967296) as u32,
            (n / 4294967296) as u32,
            0,
            0,
        ]),
        None => Some([settled::BIG, place, 0, 0, 0, 0]),
    }
}

// The value of an environment name.
fn bound(given: Given, place: u32) -> Option<[u32; 6]>
    ensures { numbers_of result ≡ amount_numbers place (value_in (lines_on given.entry.bound.text.now given.entry.bound.table.now given.entry.bound.lines.widths given.entry.bound.lines.values) (name_from given.entry.text.now place)) }
{
    let x = value(given.text, place as usize, given.bound);
    amount(place, Some(u64::from(x)))
}

// A port: its number and its width.
fn port(given: Given, op: u32, place: u32) -> Option<[u32; 6]>
    ensures { Looked given.entry (numbers_of result) (λ a s. port_out a s op place) }
{
    let k = numbered(given.text, given.tape, given.many, SIGNED, place);
    Some([op, place, narrow(k), 0, 0, width_of(given.widths, k)])
}

// The width of the memory whose name stands at a place: memories come after the ports.
fn memory_width(given: Given, place: u32) -> u32
    ensures { Looked given.entry result (λ a s. memory_width_out a s place) }
{
    let k = numbered(given.text, given.tape, given.many, SIGNED, place);
    let ports = count(given.tape, given.many, SIGNED);
    if k < ports {
        return width_of(given.widths, k);
    }
    width_of(
        given.widths,
        ports + numbered(given.text, given.tape, given.many, MEMORY, place),
    )
}

// A cell of a memory: its number, its first cell, its size and its width.
fn cell(given: Given, op: u32, place: u32) -> Option<[u32; 6]>
    ensures { Looked given.entry (numbers_of result) (λ a s. cell_out a s op place) }
{
    let k = numbered(given.text, given.tape, given.many, MEMORY, place);
    let first = narrow(cells_before(given.tape, given.many, k));
    let w = memory_width(given, place);
    Some([
        op,
        place,
        narrow(k),
        first,
        size_of(given.tape, given.many, k),
        w,
    ])
}

// The latest `let` in force of a name, in its slot; where there is none, a port.
fn read(given: Given, i: usize, place: u32, lets: usize, vals: usize) -> Option<[u32; 6]>
    requires { (lets ≤ i) × (i < given.many) }
    ensures { Reads result given.entry i place lets vals }
{
    let called = name(given.text, place as usize);
    if said(given.text, given.tape, lets, i, Class::Val, called) {
        let k = latest(given.text, given.tape, lets, i, called);
        let slot = vals.saturating_sub(k).saturating_sub(1);
        return Some([settled::HELD, place, narrow(slot), 0, 0, 0]);
    }
    port(given, settled::READ, place)
}

// A port as the plan has it: its width, plus 256 for an output.
fn signed(given: Given, place: u32) -> Option<[u32; 6]>
    ensures { Looked given.entry (numbers_of result) (λ a s. signed_out a s place) }
{
    let w = width_of(
        given.widths,
        numbered(given.text, given.tape, given.many, SIGNED, place),
    );
    if said(
        given.text,
        given.tape,
        0,
        given.many,
        Class::Input,
        name(given.text, place as usize),
    ) {
        return Some([settled::SIGNED, place, w, 0, 0, 0]);
    }
    Some([settled::SIGNED, place, narrow(w as usize + OUTPUT), 0, 0, 0])
}

// An entry of a rule's list: its port, and whether it is to be present.
fn entry(given: Given, place: u32, value: u32) -> Option<[u32; 6]>
    ensures { numbers_of result ≡ six PRESENT place (operand (index (named given.entry.text.now given.entry.tape.now SIGNED 0 given.entry.many) (name_from given.entry.text.now place))) value 0 0 }
{
    let port = narrow(numbered(given.text, given.tape, given.many, SIGNED, place));
    Some([settled::PRESENT, place, port, value, 0, 0])
}

// A memory: its width and its size.
fn memory(given: Given, place: u32, size: u32) -> Option<[u32; 6]>
    ensures { Looked given.entry (numbers_of result) (λ a s. six MEMORY place (memory_width_out a s place) size 0 0) }
{
    let w = memory_width(given, place);
    Some([settled::MEMORY, place, w, size, 0, 0])
}

// Whether an item writes nothing.
#[tactic(auto, unfolding(crate::specs::Tables::silent))]
fn silent(op: u32) -> bool
    ensures { result ≡ silent_of op }
{
    op < BITS || matches!(op, LET | END | GROUPED | DECLARED | SIZE | ACTOR)
}

// An item that neither names something nor holds a type.
#[tactic(auto, unfolding(crate::specs::Tables::numbers_of, crate::specs::Tables::plain_out, crate::specs::Walk::when))]
fn plain(op: u32, place: u32, value: u32) -> Option<[u32; 6]>
    ensures { numbers_of result ≡ plain_out op place value }
{
    if silent(op) {
        return None;
    }
    match op {
        INSIDE | DEFAULT => Some([settled::START, place, 0, 0, 0, 0]),
        _ => Some([op, place, value, 0, 0, 0]),
    }
}

// A `val`: its slot, with the width of the latest type where it has one.
fn val(
    place: u32,
    value: u32,
    code: &[u32],
    starts: &[usize],
    widths: &[u32],
    w: Waits,
    vals: usize,
) -> Option<[u32; 6]>
    requires { (w.types ≤ length starts.now) × (w.nodes ≤ length code.now) }
    ensures { WritesTyped result VAL place value code.now starts.now widths.now w vals }
{
    if value == 1 {
        let x = width(code, starts, widths, w);
        Some([settled::TYPED, place, narrow(vals), 0, 0, x])
    } else {
        Some([settled::VAL, place, narrow(vals), 0, 0, 0])
    }
}

// An item that names nothing: it may hold the latest type, or the latest two.
fn typed(
    op: u32,
    place: u32,
    value: u32,
    code: &[u32],
    starts: &[usize],
    widths: &[u32],
    w: Waits,
    vals: usize,
) -> Option<[u32; 6]>
    requires { (w.types ≤ length starts.now) × (w.nodes ≤ length code.now) × Ordered starts.now w.types w.nodes }
    ensures { WritesTyped result op place value code.now starts.now widths.now w vals }
{
    match op {
        TYPED => {
            let x = width(code, starts, widths, w);
            Some([settled::BITS, place, x, 0, 0, 0])
        }
        BIT => {
            let q = position(code, starts, widths, w);
            Some([settled::RANGE, place, q, q, 0, 0])
        }
        RANGE => {
            let low = position(code, starts, widths, w);
            let high = position(code, starts, widths, without(starts, w, 1));
            Some([settled::RANGE, place, high, low, 0, 0])
        }
        VAL => val(place, value, code, starts, widths, w, vals),
        _ => plain(op, place, value),
    }
}

// What item i writes.
pub fn written(given: Given, i: usize, code: &[u32], starts: &[usize], far: Far) -> Option<[u32; 6]>
    requires { Lent given code.now starts.now i far }
    ensures { Writes result given.entry code.now starts.now i far }
{
    let op = given.tape[3 * i];
    let p = given.tape[3 * i + 1];
    let v = given.tape[3 * i + 2];
    match op {
        GIVEN => amount(p, sized_constants::constant(given.text, p as usize)),
        VALUE => bound(given, p),
        READ => read(given, i, p, far.lets, far.vals),
        CELL => cell(given, settled::CELL, p),
        WRITE => cell(given, settled::WRITE, p),
        ASSIGN => port(given, settled::ASSIGN, p),
        PRESENT => entry(given, p, v),
        MEMORY => memory(given, p, far.size),
        SIGNED => signed(given, p),
        _ => typed(op, p, v, code, starts, given.widths, far.waits, far.vals),
    }
}
