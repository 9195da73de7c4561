// One item of the tape: what it takes of the room that is left, and its faults.
ghost use Rattle.std.specs.Prelude.{◌≡◌, ℕ, ◌+◌, ◌*◌, ◌≤◌, ◌<◌, length};
ghost use Rattle.std.specs.Option.{unwrap_or};
ghost use Rattle.language.specs.Text.{earliest};
ghost use Rattle.words.specs.Found.{place_told};
ghost use Rattle.part_lengths.specs.Parts.{before, places_in};
ghost use Rattle.row07_limits.specs.Walk.{left_of, again_of, size_in, size_place_in, full_for, bad_size, last_limit, other_limit, next_room, faults_of};

use crate::Room;
use part_lengths::{both, held};
use tape::{
    ASSIGN, BIT, COPIES, DECLARED, MEMORY, OR, RANGE, RULE, RULED, SIGNED, SIZE, TYPED, VAL, WRITE,
};

// The most words of a type, and of a whole expression.
const IN_TYPE: u32 = language::Type::WORDS;

const IN_WHOLE: u32 = language::Expression::WORDS;

// What is left where so much is taken.
#[tactic(auto, unfolding(crate::specs::Walk::left_of))]
fn left(takes: bool, room: u32, n: u32) -> u32
    ensures { result ≡ left_of takes room n }
{
    if takes { room.saturating_sub(n) } else { room }
}

// Where a rule ends the room for `val`s is whole again.
#[tactic(auto, unfolding(crate::specs::Walk::again_of))]
fn again(ends: bool, room: u32) -> u32
    ensures { result ≡ again_of ends room }
{
    if ends { language::Plan::VALS } else { room }
}

// The room after an item; a memory takes as many cells as the size before it.
#[tactic(auto, unfolding(crate::specs::Walk::next_room))]
pub fn next(room: Room, op: u32, size: u32) -> Room
    ensures { result ≡ next_room room op size }
{
    Room {
        ports: left(op == SIGNED, room.ports, 1),
        memories: left(op == MEMORY, room.memories, 1),
        cells: left(op == MEMORY, room.cells, size),
        groups: left(op == OR, room.groups, 1),
        rules: left(op == RULE, room.rules, 1),
        vals: again(op == RULED, left(op == VAL, room.vals, 1)),
    }
}

// The place and the value of the size that stands before item i, if one does.
// No twin of looked_up::size_before: that one answers with the value alone, by its own definition of it.
pub fn size_before(tape: &[u32], i: usize) -> Option<(u32, u32)>
    requires { 3 * i ≤ length tape.now }
    ensures { (p : ℕ) → unwrap_or result (p, 1) ≡ (size_place_in (before tape.now i) p, size_in (before tape.now i)) }
{
    let j = i.checked_sub(1)?;
    (tape[3 * j] == SIZE).then_some((tape[3 * j + 1], tape[3 * j + 2]))
}

// Whether an item is one too many, or a number of copies too big.
#[tactic(auto, unfolding(crate::specs::Walk::full_for))]
fn full(room: Room, op: u32, value: u32) -> bool
    ensures { result ≡ full_for room op value }
{
    match op {
        SIGNED => room.ports == 0,
        MEMORY => room.memories == 0,
        OR => room.groups == 0,
        RULE => room.rules == 0,
        VAL => room.vals == 0,
        COPIES => language::Expression::COPIES < value,
        _ => false,
    }
}

// Whether a memory's size is none or passes its limit or the cells that are left.
#[tactic(auto, unfolding(crate::specs::Walk::bad_size))]
fn bad_size(cells: u32, op: u32, size: u32) -> bool
    ensures { result ≡ bad_size cells op size }
{
    op == MEMORY && (size == 0 || language::Plan::SIZE < size || cells < size)
}

// The limit of the words of the part before an item, and of the one before that, where it holds one.
#[tactic(auto, unfolding(crate::specs::Walk::last_limit, crate::specs::Walk::in_type))]
fn last_limit(op: u32, value: u32) -> Option<u32>
    ensures { result ≡ last_limit op value }
{
    match op {
        TYPED | BIT | RANGE => Some(IN_TYPE),
        ASSIGN | WRITE | VAL => Some(IN_WHOLE),
        // a port's value tells besides whether it is an input
        DECLARED => (value % 2 == 1).then_some(IN_TYPE),
        MEMORY => (value == 1).then_some(IN_TYPE),
        _ => None,
    }
}

#[tactic(auto, unfolding(crate::specs::Walk::other_limit, crate::specs::Walk::in_type))]
fn other_limit(op: u32, value: u32) -> Option<u32>
    ensures { result ≡ other_limit op value }
{
    match op {
        RANGE => Some(IN_TYPE),
        WRITE => Some(IN_WHOLE),
        VAL => (value == 1).then_some(IN_TYPE),
        _ => None,
    }
}

// The earliest fault of item i.
pub fn item_fault(table: &[u32], many: usize, tape: &[u32], room: Room, i: usize) -> Option<u32>
    requires { (4 * many ≤ length table.now) × (3 * i + 2 < length tape.now) }
    ensures { result ≡ place_told (earliest (faults_of (places_in table.now 0 many) room tape.now i)) }
{
    let op = tape[3 * i];
    let place = tape[3 * i + 1];
    let value = tape[3 * i + 2];
    let one = full(room, op, value).then_some(place);
    let (size_place, size) = size_before(tape, i).unwrap_or((place, 1));
    let sized = bad_size(room.cells, op, size).then_some(size_place);
    let long = held(
        table,
        many,
        tape,
        i,
        last_limit(op, value),
        other_limit(op, value),
    );
    both(one, both(sized, long))
}
