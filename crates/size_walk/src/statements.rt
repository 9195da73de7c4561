// The items that end a statement: a value goes to its target, or is kept.
ghost use Rattle.std.specs.Prelude.{◌≡◌};
ghost use Rattle.size_walk.specs.declared.Seen.{Seen};
ghost use Rattle.size_walk.specs.Effects.{kept_of, fitted_at, assign_effect, write_effect, val_effect, typed_effect};

use crate::effects::{ends, sooner, unless};
use crate::{Effect, FAULTY, Seen};
use plan::Item;

const WIDE: u32 = language::Expression::WIDTH;

// A value is no wider than its target; what has a fault inside has no further one.
#[tactic(auto, unfolding(crate::specs::Effects::fitted_at, crate::specs::Effects::has))]
fn fitted(w: u32, seen: Seen) -> Option<u32>
    ensures { result ≡ fitted_at seen w }
{
    unless(WIDE < seen.x || seen.x <= w, seen.s)
}

#[tactic(auto, unfolding(crate::specs::Effects::assign_effect))]
pub fn assign(port: u32, w: u32, seen: Seen) -> Effect
    ensures { result ≡ assign_effect seen port w }
{
    ends(1, fitted(w, seen), Some(Item::Assign(port)))
}

#[tactic(auto, unfolding(crate::specs::Effects::write_effect))]
pub fn write(m: u32, first: u32, size: u32, w: u32, seen: Seen) -> Effect
    ensures { result ≡ write_effect seen m first size w }
{
    ends(2, fitted(w, seen), Some(Item::Write(m, first, size)))
}

#[tactic(auto, unfolding(crate::specs::Effects::val_effect))]
pub fn val(slot: u32, seen: Seen) -> Effect
    ensures { result ≡ val_effect seen slot }
{
    ends(1, None, Some(Item::Keep(slot, seen.x)))
}

// The width of a `let` with a type: its type's, where that holds its value.
#[tactic(auto, unfolding(crate::specs::Effects::kept_of))]
fn kept(holds: bool, w: u32) -> u32
    ensures { (v : Seen) → result ≡ kept_of v holds w }
{
    if holds { w } else { FAULTY }
}

// A `let`'s type is its target, 64 at most.
#[tactic(auto, unfolding(crate::specs::Effects::typed_effect, crate::specs::Effects::has))]
pub fn typed(p: u32, slot: u32, w: u32, seen: Seen) -> Effect
    ensures { result ≡ typed_effect seen p slot w }
{
    let holds = w <= WIDE && seen.x <= w;
    ends(
        1,
        sooner(unless(w <= WIDE, p), fitted(w, seen)),
        Some(Item::Keep(slot, kept(holds, w))),
    )
}
