// The items that take no expression: constants, ports and memories' cells are read, `let`s are used.
ghost use Rattle.std.specs.Prelude.{◌≡◌, ◌+◌, ◌*◌, ◌^◌, ltb};
ghost use Rattle.size_walk.specs.Effects.{plain_effect, read_effect, big_effect, sized_effect, used_effect};

use plan::Item;
use size_walk::{Effect, Seen, gives, tested};

const WIDE: u32 = language::Expression::WIDTH;

// A constant of one or two halves fits a width.
fn within(lo: u32, hi: u32, w: u32) -> bool
    ensures { result ≡ ltb (lo + hi * 2 ^ 32) (2 ^ w) }
{
    plan::within(plan::constant(lo, hi), w)
}

// A constant of digits that 64 bits do not hold.
#[tactic(auto, unfolding(size_walk::specs::Effects::big_effect))]
pub fn too_big(seen: Seen) -> Effect
    ensures { result ≡ big_effect seen }
{
    tested(false, 0, 0, seen.start, seen.start, None)
}

#[tactic(auto, unfolding(size_walk::specs::Effects::sized_effect, size_walk::specs::Effects::has))]
pub fn sized(lo: u32, hi: u32, seen: Seen) -> Effect
    ensures { result ≡ sized_effect seen lo hi }
{
    let w = seen.breadth;
    tested(
        w <= WIDE && within(lo, hi, w),
        0,
        w,
        seen.start,
        seen.start,
        Some(Item::Const(w, lo, hi)),
    )
}

#[tactic(auto, unfolding(size_walk::specs::Effects::plain_effect))]
pub fn plain(p: u32, value: u32) -> Effect
    ensures { result ≡ plain_effect p value }
{
    let w = bits::plain_width(u64::from(value));
    gives(0, w, p, None, Some(Item::Const(w, value, 0)))
}

#[tactic(auto, unfolding(size_walk::specs::Effects::read_effect))]
pub fn read(p: u32, port: u32, w: u32) -> Effect
    ensures { result ≡ read_effect p port w }
{
    gives(0, w, p, None, Some(Item::Port(port)))
}

#[tactic(auto, unfolding(size_walk::specs::Effects::used_effect))]
pub fn used(p: u32, slot: u32, seen: Seen) -> Effect
    ensures { result ≡ used_effect seen p slot }
{
    gives(0, seen.held, p, None, Some(Item::Let(slot)))
}
