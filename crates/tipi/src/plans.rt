// Rows 10 to 13 of document 01: the widths, the sizes of values, presence, the plan.
ghost use Rattle.tape.specs.Tape.{longest, most_items};
ghost use Rattle.std.specs.Prelude.{List, ◌*◌, ◌≤◌, length};
ghost use Rattle.language.specs.Words.{Word};
ghost use Rattle.language.specs.Tree.{Actor};
ghost use Rattle.language.specs.Bindings.{Bindings};
ghost use Rattle.language.specs.Widths.{Least};
ghost use Rattle.language.specs.Sizes.{Setting};
ghost use Rattle.tipi.specs.Told.{Told, Heard, Settled, late_of, PlannedTold, SizedTold};

use crate::refused;
use bindings::Bound;
use language::Text;
use plan_answer::{Answer, made};

// A settled item, six numbers, for each item of the tape; for each of these at most one item of code, four numbers.
const NUMBERS: usize = 6 * tape::ITEMS;

const CODE: usize = 4 * tape::ITEMS;

// A width for each port and each memory.
const WIDTHS: usize = (language::Plan::PORTS + language::Plan::MEMORIES) as usize;

const RULES: usize = language::Plan::RULES as usize;

// Rows 11 to 13, of an actor whose settled items are these.
fn finished(items: &[u32], many: usize, plan: &mut [u32]) -> Answer
    requires many_le_most_items { (many ≤ most_items) × (6 * many ≤ length items.now) }
    requires settled { (ws : List Word) × (s : Setting) × Settled items.now many ws s }
    ensures { (ws : List Word) (s : Setting) → Settled items.now many ws s → Told (late_of s) result plan.old plan.new }
{
    let mut code = [0u32; CODE];
    let mut lengths = [0u32; RULES];
    match row11_sizes::fault(items, many, &mut code, &mut lengths) {
        Some(p) => refused(11, Text::Actor, p),
        None => match row12_presence::fault(items, many) {
            Some(p) => refused(12, Text::Actor, p),
            None => made(items, many, &code, &lengths, plan),
        },
    }
}

// Rows 11 to 13, at these widths.
fn sized(
    text: &[u8],
    tape: &[u32],
    n: usize,
    bound: Bound,
    widths: &[u32],
    plan: &mut [u32],
) -> Answer
    requires n_in_bounds { (n ≤ length tape.now) × (n ≤ longest) }
    requires heard { (ws : List Word) × (a : Actor) × (b : Bindings) × Heard text.now tape.now n bound ws a b × Least a b widths.now }
    ensures { SizedTold text.now tape.now n bound.entry widths.now result plan.old plan.new }
{
    let mut items = [0u32; NUMBERS];
    let many = settle::settled(text, tape, n, bound, widths, &mut items);
    finished(&items, many / 6, plan)
}

// Rows 10 to 13, where the rows before have no fault.
pub fn planned(text: &[u8], tape: &[u32], n: usize, bound: Bound, plan: &mut [u32]) -> Answer
    requires n_in_bounds { (n ≤ length tape.now) × (n ≤ longest) }
    requires heard { (ws : List Word) × (a : Actor) × (b : Bindings) × Heard text.now tape.now n bound ws a b }
    ensures { PlannedTold text.now tape.now n bound.entry result plan.old plan.new }
{
    let mut widths = [0u32; WIDTHS];
    match row10_widths::solved(text, tape, n, bound, &mut widths) {
        Some(w) => sized(text, tape, n, bound, &widths[..w], plan),
        None => refused(10, Text::Actor, 0),
    }
}
