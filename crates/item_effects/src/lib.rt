// What each settled item does, and what is then written in the tables of row 11's walk.
// What comes in: an item's six numbers, the widths and first bytes of the expressions that wait, the tables.
// What goes out: its effect; the tables with what it leaves, keeps, adds to the code, and ends.
#![tactic(auto)]

mod leaves;
mod over;
mod steps;

ghost use Rattle.std.specs.Prelude.{◌≡◌, ◌≤◌};
ghost use Rattle.settled.specs.Form.{most_settled};
ghost use Rattle.size_walk.specs.Effects.{effect_of};

use settled::{
    AMOUNT, ARM, ASSIGN, BESIDE, BIG, BINARY, BITS, CELL, CHOICE, COPIES, EITHER, HELD, JOINED,
    PLAIN, RANGE, READ, RULED, SELECT, SELECTED, START, TYPED, UNARY, VAL, WRITE,
};
use size_walk::{Effect, Seen, ends};
pub use steps::{effect_at, emitted, ended, hold, left, part, seen};

// What a settled item does: by its operation, its place and its four operands.
#[tactic(auto, unfolding(size_walk::specs::Effects::effect_of))]
fn effect(op: u32, p: u32, a: u32, b: u32, c: u32, d: u32, seen: Seen) -> Effect
    requires { seen.cases ≤ most_settled }
    ensures { result ≡ effect_of op p a b c d seen }
{
    match op {
        BIG => leaves::too_big(seen),
        AMOUNT => leaves::sized(a, b, seen),
        PLAIN => leaves::plain(p, a),
        COPIES => over::copies(p, a, seen),
        READ => leaves::read(p, a, d),
        CELL => over::cell(p, a, b, c, d, seen),
        HELD => leaves::used(p, a, seen),
        RANGE => over::range(p, a, b, seen),
        START => over::begun(p, seen),
        JOINED => over::joined(p, seen),
        BESIDE => over::beside(seen),
        UNARY => over::unary(p, a, seen),
        BINARY => over::binary(a, seen),
        CHOICE => over::choice(seen.u, seen),
        EITHER => over::choice(p, seen),
        SELECT => over::select(seen),
        SELECTED => over::selected(p, seen),
        ARM => over::arm(p, a, seen),
        ASSIGN => size_walk::assign(a, d, seen),
        WRITE => size_walk::write(a, b, c, d, seen),
        TYPED => size_walk::typed(p, a, d, seen),
        VAL => size_walk::val(a, seen),
        _ => ends(0, None, None),
    }
}
