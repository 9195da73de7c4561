// Counts and texts, byte by byte.
ghost use Rattle.std.specs.Prelude.{◌≡◌, length, set};
ghost use Rattle.input_bytes.specs.Texts.{count_byte, kept_of, actor_byte, bindings_byte};

use figures::{Stage, State};

// A byte of a count, or the end of its line, after which a stage starts.
#[tactic(auto, unfolding(crate::specs::Texts::count_byte))]
pub fn count_byte(s: State, b: u8, next: Stage) -> State
    ensures { result ≡ count_byte next s b }
{
    if s.takes(b) {
        return s.longer(b);
    }
    match s.number {
        Some(n) if b == b'\n' => s.at_stage(next, n),
        _ => s.wrong(),
    }
}

// A byte of a text is kept while there is room, which is one byte more than its limit.
// By an index: `get_mut` promises nothing of the elements.
#[tactic(auto, unfolding(crate::specs::Texts::kept_of))]
fn keep(text: &mut [u8], k: usize, b: u8) -> usize
    ensures { (result ≡ kept_of k (length text.old)) × (text.new ≡ set text.old k b) }
{
    if k < text.len() {
        text[k] = b;
        k + 1
    } else {
        k
    }
}

#[tactic(auto, unfolding(crate::specs::Texts::actor_byte))]
pub fn actor_byte(s: State, b: u8, actor: &mut [u8]) -> State
    ensures { (result ≡ actor_byte s (length actor.old)) × (actor.new ≡ set actor.old s.actor b) }
{
    State {
        stage: Stage::Actor,
        number: None,
        left: s.left.saturating_sub(1),
        port: 0,
        actor: keep(actor, s.actor, b),
        ..s
    }
}

// As `actor_byte` but for the field that has the length: one function would be passed both ways to it, and be no plainer.
#[tactic(auto, unfolding(crate::specs::Texts::bindings_byte))]
pub fn bindings_byte(s: State, b: u8, bindings: &mut [u8]) -> State
    ensures { (result ≡ bindings_byte s (length bindings.old)) × (bindings.new ≡ set bindings.old s.bindings b) }
{
    State {
        stage: Stage::Bindings,
        number: None,
        left: s.left.saturating_sub(1),
        port: 0,
        bindings: keep(bindings, s.bindings, b),
        ..s
    }
}
