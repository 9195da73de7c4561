// Rows 6 to 9 of document 01, in order: the first fault of an actor that the grammar takes.
// What comes in: the text of the actor and its tape, and the bindings.
// What goes out: the first fault, with its row, its text and its place, or that there is none.
#![tactic(auto)]

ghost use Rattle.std.specs.Prelude.{◌≡◌, List, ◌≤◌, length};
ghost use Rattle.language.specs.Words.{Word};
ghost use Rattle.language.specs.Tree.{Actor};
ghost use Rattle.language.specs.Bindings.{Bindings};
ghost use Rattle.early_rows.specs.Verdicts.{verdict_by, TextsHeld, FirstTold};

use bindings::Bound;
use language::{Refusal, Text};
use row09_bindings::{strangers, unsettled};

// A row goes through where it tells no place.
#[tactic(auto, unfolding(crate::specs::Verdicts::verdict_by))]
fn passes(row: u32, text: Text, told: Option<u32>) -> Result<(), Refusal>
    ensures { result ≡ verdict_by row text told }
{
    match told {
        Some(place) => Err(Refusal { row, text, place }),
        None => Ok(()),
    }
}

// The first fault of an actor that the grammar takes, by its names, limits, types and bindings.
pub fn first(text: &[u8], tape: &[u32], n: usize, bound: Bound) -> Result<(), Refusal>
    requires n_in_bounds { n ≤ length tape.now }
    requires texts_held { (ws : List Word) × (a : Actor) × (b : Bindings) × TextsHeld text.now tape.now n bound ws a b }
    ensures { FirstTold text.now tape.now n bound.entry result }
{
    passes(6, Text::Actor, row06_names::fault(text, tape, n))?;
    passes(7, Text::Actor, row07_limits::fault(text, tape, n))?;
    passes(8, Text::Actor, row08_types::fault(tape, n))?;
    passes(9, Text::Bindings, strangers(text, tape, n, bound))?;
    passes(9, Text::Actor, unsettled(text, tape, n, bound))
}
