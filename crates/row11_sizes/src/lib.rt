// Row 11 of document 01: how wide each expression is, the first fault, and the plan's code.
// What comes in: the settled items of an actor, six numbers each. What goes out: the earliest place of a constant too big, a bit
// outside, an expression over 64 wide or a value wider than its target; and the code of the rules, with the length of each.
#![tactic(auto)]

ghost use Rattle.settled.specs.Form.{most_settled};
ghost use Rattle.std.specs.Prelude.{◌≡◌, ◌+◌, ◌*◌, ◌≤◌, ◌<◌, length};
ghost use Rattle.laws.specs.Tables.{Kept};
ghost use Rattle.size_walk.specs.Steps.{State, Holds, walked, laid, room};
ghost use Rattle.size_walk.specs.Bounds.{step_at, Bounded};

use item_effects::{effect_at, emitted, ended, hold, left, part, seen};
use size_walk::{Far, onward};

// A slot for each `val` of a rule.
const VALS: usize = language::Plan::VALS as usize;

// The walk's own tables: the widths and first bytes of the expressions that wait, and the widths that the slots hold.
#[derive(Drop)]
struct Tables {
    widths: [u32; settled::ITEMS],
    starts: [u32; settled::ITEMS],
    slots: [u32; VALS],
}

// Item i, in the tables.
fn step(
    items: &[u32],
    i: usize,
    tables: &mut Tables,
    code: &mut [u32],
    lengths: &mut [u32],
    far: Far,
) -> Far
    requires i_lt_most_settled { (i < most_settled) × (6 * i + 6 ≤ length items.now) × (4 * i + 4 ≤ length code.old) }
    requires lengths_len { length lengths.old ≡ room }
    requires bounded { Bounded far i }
    ensures bounds { Bounded result (i + 1) }
    ensures code { Kept far.out result.out code.old code.new }
    ensures lengths { Kept far.rules result.rules lengths.old lengths.new }
    ensures holds { (s : State) → Holds tables.old.widths tables.old.starts tables.old.slots code.old lengths.old far s
        → Holds tables.new.widths tables.new.starts tables.new.slots code.new lengths.new result (step_at s items.now i) }
{
    let op = part(items, i, 0);
    let p = part(items, i, 1);
    let a = part(items, i, 2);
    let e = effect_at(
        items,
        i,
        seen(&tables.widths, &tables.starts, &tables.slots, a, far),
    );
    hold(op, a, e.emits, &mut tables.slots);
    let out = emitted(e.emits, code, far.out);
    let rules = ended(op, lengths, far.rules, out - far.rule);
    let waits = left(e, far.waits, &mut tables.widths, &mut tables.starts);
    onward(op, p, a, e.fault, waits, out, rules, far)
}

// The earliest fault of the settled items; the code, and the length of each rule's.
pub fn fault(items: &[u32], many: usize, code: &mut [u32], lengths: &mut [u32]) -> Option<u32>
    requires { (many ≤ most_settled) × (6 * many ≤ length items.now) × (4 * many ≤ length code.old) × (length lengths.old ≡ room) }
    ensures first { result ≡ (walked items.now many).first }
    ensures code { code.new ≡ laid (walked items.now many).code code.old }
    ensures lengths { lengths.new ≡ laid (walked items.now many).lengths lengths.old }
{
    let mut tables = Tables {
        widths: [0; settled::ITEMS],
        starts: [0; settled::ITEMS],
        slots: [0; VALS],
    };
    let mut far = Far {
        waits: 0,
        out: 0,
        first: None,
        breadth: 0,
        start: 0,
        cases: 0,
        rules: 0,
        rule: 0,
    };
    for i in 0..many {
        far = step(items, i, &mut tables, code, lengths, far);
    }
    far.first
}
