// Row 7 of document 01: what an actor has over a limit that no other row names, read off its tape and its text.
// What comes in: the text, and the tape that holds its actor. What goes out: the earliest place of a port, memory, group,
// rule or `val` too many, of a bad size or number of copies, or of the first word too many of a type or an expression.
#![tactic(auto)]

mod items;

ghost use Rattle.std.specs.Prelude.{◌≡◌, List, ◌*◌, ◌≤◌, length};
ghost use Rattle.language.specs.Text.{earliest};
ghost use Rattle.language.specs.Words.{Word};
ghost use Rattle.language.specs.Limits.{limits};
ghost use Rattle.language.specs.Tree.{Actor};
ghost use Rattle.language.specs.Counts.{limit_faults};
ghost use Rattle.words.specs.Found.{place_told};
ghost use Rattle.tape.specs.Row.{Tells};
ghost use Rattle.part_lengths.specs.Parts.{places_in};
ghost use Rattle.row07_limits.specs.Walk.{faults_at};

use items::{item_fault, next, size_before};
use part_lengths::both;

// Four numbers for each word, of which a text has at most one to a byte.
const TABLE: usize = 4 * language::Actor::BYTES as usize;

// How many more there may be of each.
#[derive(Clone, Copy)]
struct Room {
    ports: u32,
    memories: u32,
    cells: u32,
    groups: u32,
    rules: u32,
    vals: u32,
}

// The earliest place of a fault among so many items, by the table of so many words.
fn walk(table: &[u32], many: usize, tape: &[u32], items: usize) -> Option<u32>
    requires { (4 * many ≤ length table.now) × (3 * items ≤ length tape.now) }
    ensures { result ≡ place_told (earliest (faults_at (places_in table.now 0 many) tape.now items)) }
{
    let mut first = None;
    let mut room = Room {
        ports: language::Plan::PORTS,
        memories: language::Plan::MEMORIES,
        cells: language::Plan::CELLS,
        groups: language::Plan::GROUPS,
        rules: language::Plan::RULES,
        vals: language::Plan::VALS,
    };
    for i in 0..items {
        first = both(item_fault(table, many, tape, room, i), first);
        let (_, size) = size_before(tape, i).unwrap_or((0, 1));
        room = next(room, tape[3 * i], size);
    }
    first
}

// The walk, where the table has room for its words.
fn listed(table: &[u32], many: usize, tape: &[u32], items: usize) -> Option<u32>
    requires { 3 * items ≤ length tape.now }
    ensures { 4 * many ≤ length table.now → result ≡ place_told (earliest (faults_at (places_in table.now 0 many) tape.now items)) }
{
    if table.len() / 4 < many {
        return None;
    }
    walk(table, many, tape, items)
}

// The earliest place of row 7, where the tape holds the actor of the text, which row 1 has let through.
pub fn fault(text: &[u8], tape: &[u32], n: usize) -> Option<u32>
    requires { n ≤ length tape.now }
    ensures { (ws : List Word) (a : Actor) → length text.now ≤ limits.actor → Tells text.now tape.now n ws a → result ≡ place_told (earliest (limit_faults ws a)) }
{
    let mut table = [0u32; TABLE];
    match words::words(text, &mut table) {
        Ok(many) => listed(&table, many as usize, tape, n / 3),
        Err(_) => None,
    }
}
