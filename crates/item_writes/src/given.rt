// What an actor is settled by: all of it is read, and nothing written.
ghost use Rattle.std.specs.Prelude.{◌*◌, ◌≤◌, length};
ghost use Rattle.tape.specs.Tape.{most_items};

use bindings::Bound;

// The actor's text and tape, its bindings, the widths of its ports and memories; how many items the tape has.
#[derive(Clone, Copy)]
pub struct Given<'a> {
    pub text: &'a [u8],
    pub tape: &'a [u32],
    pub bound: Bound<'a>,
    pub widths: &'a [u32],
    pub many: usize,
    ghost there: { 3 * many ≤ length tape.now },
    ghost few: { many ≤ most_items },
}
