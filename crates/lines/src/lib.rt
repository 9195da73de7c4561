// The line at a place of one of the two texts, as document 01 hands it out with a fault.
// What comes in: the actor's text and the bindings', which of them is meant, and a place.
// What goes out: a part of that text, the line without its line end; the empty part at the text's end for a place outside it.
#![tactic(auto)]

ghost use Rattle.std.specs.Prelude.{◌≡◌, ◌==◌, [], ◌≤◌, length, position, reverse};
ghost use Rattle.language.specs.Text.{line_from};
ghost use Rattle.lines.specs.Bounds.{start_of, end_of, LineStands, LineOf};

use language::Text;

// How many bytes stand before the first line end, if there is one.
fn on_to_end(text: &[u8]) -> Option<usize>
    ensures { result ≡ position (λ b. b == 10) text.now }
{
    text.iter().position(|b| *b == b'\n')
}

// How many stand after the last.
fn back_to_end(text: &[u8]) -> Option<usize>
    ensures { result ≡ position (λ b. b == 10) (reverse text.now) }
{
    text.iter().rev().position(|b| *b == b'\n')
}

// Where the line of a place starts: past the last line end before the place, since a line end belongs to the line that it ends.
fn start(text: &[u8], place: usize) -> usize
    requires { place ≤ length text.now }
    ensures { (result ≤ place) × (result ≡ start_of text.now place) }
{
    match back_to_end(&text[..place]) {
        Some(n) => place - n,
        None => 0,
    }
}

// Where the line that starts at `from` ends: at the next line end, or at the text's end.
fn end(text: &[u8], from: usize) -> usize
    requires { from ≤ length text.now }
    ensures { (from ≤ result) × (result ≤ length text.now) × (result ≡ end_of text.now from) }
{
    match on_to_end(&text[from..]) {
        Some(n) => from + n,
        None => text.len(),
    }
}

// The line at a place of one text.
fn of(text: &[u8], place: usize) -> &[u8]
    ensures { LineStands text.now text.entry.ref_ptr (line_from 0 [] text.now place) result.now result.ref_ptr }
{
    let last = text.len();
    if last <= place {
        return &text[last..last];
    }
    let from = start(text, place);
    let to = end(text, from);
    &text[from..to]
}

// The line at a place, out of the text that the place names.
pub fn line<'a>(actor: &'a [u8], bindings: &'a [u8], which: Text, place: usize) -> &'a [u8]
    ensures { LineOf actor.now bindings.now actor.entry.ref_ptr bindings.entry.ref_ptr which place result.now result.ref_ptr }
{
    match which {
        Text::Actor => of(actor, place),
        Text::Bindings => of(bindings, place),
    }
}
