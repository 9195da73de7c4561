// Row 9 of document 01: the bindings of an actor, read off its tape and the table of the bindings' lines.
// What comes in: the actor's text and tape, and the bindings. What goes out: the earliest line that binds no
// port or no environment name of the actor, and the earliest name of the actor that has neither a type nor a binding.
#![tactic(auto)]

ghost use Rattle.std.specs.Prelude.{◌≡◌, ◌+◌, ◌-◌, ◌*◌, ◌≤◌, ◌<◌, length, min, map};
ghost use Rattle.std.specs.List.{reduce, filter, range_with_len};
ghost use Rattle.language.specs.Text.{index};
ghost use Rattle.language.specs.Widths.{strangers as strangers_of, unsettled as unsettled_of};
ghost use Rattle.placed.specs.Placed.{name_from};
ghost use Rattle.tape.specs.Walk.{place_at};
ghost use Rattle.row09_bindings.specs.Lines.{name_on, names_on};
ghost use Rattle.row09_bindings.specs.Walk.{no_type, open_at};
ghost use Rattle.row09_bindings.specs.Told.{StrangeTold, FaultsTold};

use bindings::Bound;
use tape::{Class, DECLARED, ENVIRONMENT, MEMORY, VALUE, said};

// The name of a line.
fn line_name<'a>(bound: Bound<'a>, i: usize) -> &'a [u8]
    requires { 3 * i + 2 < length bound.table.now }
    ensures { result.now ≡ name_on bound.entry.text.now bound.entry.table.now i }
{
    let table = bound.table;
    spans::part(bound.text, table[3 * i] as usize, table[3 * i + 1] as usize)
}

// The first line, from one on and before another, that has the name at a place of the actor's text; `to` where none has.
pub fn found(text: &[u8], place: usize, bound: Bound, from: usize, to: usize) -> usize
    requires { (from ≤ to) × (3 * to ≤ length bound.table.now) }
    ensures { result ≡ from + index (names_on bound.entry.text.now bound.entry.table.now from (to - from)) (name_from text.now place) }
{
    let called = tape::name(text, place);
    for i in from..to {
        if spelling::same_bytes(line_name(bound, i), called) {
            return i;
        }
    }
    to
}

// The earliest of a place and those of the lines, from one on and before another, whose name no item of a class has.
fn strange(
    text: &[u8],
    tape: &[u32],
    many: usize,
    class: Class,
    bound: Bound,
    from: usize,
    to: usize,
    rest: Option<u32>,
) -> Option<u32>
    requires { (3 * many ≤ length tape.now) × (from ≤ to) × (3 * to ≤ length bound.table.now) }
    ensures { StrangeTold text.now tape.now many class bound.entry from to rest result }
{
    let mut first = rest;
    // no chain over both sections: what `filter` asks of each turn of two chained ranges stayed open
    for i in (from..to).rev() {
        if !said(text, tape, 0, many, class, line_name(bound, i)) {
            first = words::earlier(bound.table[3 * i], first);
        }
    }
    first
}

// The earliest place in the bindings of row 9.
pub fn strangers(text: &[u8], tape: &[u32], n: usize, bound: Bound) -> Option<u32>
    requires { n ≤ length tape.now }
    ensures { FaultsTold text.now tape.now n bound.entry strangers_of result }
{
    let many = n / 3;
    let widths = bound.lines.widths;
    let end = bound.end();
    let values = strange(
        text,
        tape,
        many,
        Class::Environment,
        bound,
        widths,
        end,
        None,
    );
    strange(text, tape, many, Class::Declared, bound, 0, widths, values)
}

// Whether a declaration has no type: its item's value counts 1 for a type and 2 for an input.
#[tactic(auto, unfolding(crate::specs::Walk::no_type))]
fn typeless(value: u32) -> bool
    ensures { result ≡ no_type value }
{
    matches!(value, 0 | 2)
}

// Whether item i names a port or memory with neither type nor binding, or an environment name without value.
#[tactic(auto, using(crate::proofs::Tests::lacks_value, crate::proofs::Tests::lacks_width), unfolding(crate::specs::Walk::ask))]
fn open_at(text: &[u8], tape: &[u32], bound: Bound, i: usize) -> bool
    requires { 3 * i + 2 < length tape.now }
    ensures { result ≡ open_at text.now tape.now bound.entry i }
{
    let place = tape[3 * i + 1] as usize;
    let widths = bound.lines.widths;
    let end = bound.end();
    match tape[3 * i] {
        ENVIRONMENT | VALUE => found(text, place, bound, widths, end) == end,
        DECLARED => typeless(tape[3 * i + 2]) && found(text, place, bound, 0, widths) == widths,
        MEMORY => typeless(tape[3 * i + 2]),
        _ => false,
    }
}

// The earliest place of an open item among so many.
fn walk(text: &[u8], tape: &[u32], many: usize, bound: Bound) -> Option<u32>
    requires { 3 * many ≤ length tape.now }
    ensures { result ≡ reduce min (map (place_at tape.now) (filter (open_at text.now tape.now bound.entry) (range_with_len 0 many))) }
{
    (0..many)
        .filter(|&i| open_at(text, tape, bound, i))
        .map(|i| tape[3 * i + 1])
        .min()
}

// The earliest place in the actor of row 9.
pub fn unsettled(text: &[u8], tape: &[u32], n: usize, bound: Bound) -> Option<u32>
    requires { n ≤ length tape.now }
    ensures { FaultsTold text.now tape.now n bound.entry unsettled_of result }
{
    walk(text, tape, n / 3, bound)
}
