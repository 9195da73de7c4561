// What an item does, put together.
ghost use Rattle.std.specs.Prelude.{◌≡◌};
ghost use Rattle.size_walk.specs.Effects.{gives_of, ends_of, faulty_of, tested_of, sooner_of, unless_at};

use crate::{Effect, FAULTY, Waiting};
use plan::Item;

// It takes so many expressions and leaves one.
#[tactic(auto, unfolding(crate::specs::Effects::gives_of))]
pub fn gives(
    takes: usize,
    width: u32,
    start: u32,
    fault: Option<u32>,
    emits: Option<Item>,
) -> Effect
    ensures { result ≡ gives_of takes width start fault emits }
{
    Effect {
        takes,
        leaves: Some(Waiting { width, start }),
        fault,
        emits,
    }
}

// It takes so many and leaves none.
#[tactic(auto, unfolding(crate::specs::Effects::ends_of))]
pub fn ends(takes: usize, fault: Option<u32>, emits: Option<Item>) -> Effect
    ensures { result ≡ ends_of takes fault emits }
{
    Effect {
        takes,
        leaves: None,
        fault,
        emits,
    }
}

// What has a fault inside has no width, and no further fault.
#[tactic(auto, unfolding(crate::specs::Effects::faulty_of))]
pub fn faulty(takes: usize, start: u32, emits: Option<Item>) -> Effect
    ensures { result ≡ faulty_of takes start emits }
{
    gives(takes, FAULTY, start, None, emits)
}

// A width where a test holds, else a fault at a place.
#[tactic(auto, unfolding(crate::specs::Effects::tested_of))]
pub fn tested(
    holds: bool,
    takes: usize,
    width: u32,
    start: u32,
    at: u32,
    emits: Option<Item>,
) -> Effect
    ensures { result ≡ tested_of holds takes width start at emits }
{
    if holds {
        gives(takes, width, start, None, emits)
    } else {
        gives(takes, FAULTY, start, Some(at), emits)
    }
}

// Both of two faults' places: the earlier.
#[tactic(auto, unfolding(crate::specs::Effects::sooner_of))]
pub fn sooner(one: Option<u32>, other: Option<u32>) -> Option<u32>
    ensures { result ≡ sooner_of one other }
{
    match one {
        None => other,
        Some(p) => words::earlier(p, other),
    }
}

// A fault at a place where a test fails.
#[tactic(auto, unfolding(crate::specs::Effects::unless_at))]
pub fn unless(holds: bool, at: u32) -> Option<u32>
    ensures { result ≡ unless_at holds at }
{
    (!holds).then_some(at)
}
