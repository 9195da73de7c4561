// The settled items of an actor (crate settled, specs/Settled.antt), by one walk over its tape (crate item_writes, specs/Walk.antt), whatever stands on it.
// What comes in: the actor's text and tape, its bindings, the widths of its ports and memories. What goes out: items of six
// numbers, an operation, a place and four operands: names by number, types by value, in the order of the tape.
#![tactic(auto)]

mod items;
mod steps;

ghost use Rattle.tape.specs.Tape.{longest, most_items};
ghost use Rattle.std.specs.Prelude.{◌≡◌, ◌*◌, ◌/◌, ◌≤◌, length, take, drop};
ghost use Rattle.item_writes.specs.Walk.{settled_on};
ghost use Rattle.item_writes.specs.Tables.{Holds, settled_in};

use bindings::Bound;
use item_writes::Given;
use steps::{begin, step};
use tape::ITEMS;

// The items of the walk, put into a table: how many numbers they are.
fn walk(given: Given, out: &mut [u32]) -> usize
    requires { 6 * given.many ≤ length out.old }
    ensures { Holds (settled_in given.entry) result out.old out.new }
{
    let mut code = [0u32; ITEMS];
    let mut starts = [0usize; ITEMS];
    let mut far = begin();
    for i in 0..given.many {
        far = step(given, i, &mut code, &mut starts, out, far);
    }
    far.out
}

// The settled items of the actor on the first n numbers of the tape: how many numbers they are.
pub fn settled(
    text: &[u8],
    tape: &[u32],
    n: usize,
    bound: Bound,
    widths: &[u32],
    out: &mut [u32],
) -> usize
    requires { (n ≤ length tape.now) × (n ≤ longest) × (2 * n ≤ length out.old) }
    ensures long { result ≡ length (settled_on text.now tape.now (n / 3) bound.entry widths.now) }
    ensures items { take result out.new ≡ settled_on text.now tape.now (n / 3) bound.entry widths.now }
    ensures past { drop result out.new ≡ drop result out.old }
{
    let given = Given {
        text,
        tape,
        bound,
        widths,
        many: n / 3,
    };
    walk(given, out)
}
