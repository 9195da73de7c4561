// The least widths of all ports and memories of an actor together.
// What comes in: their types in code, each between two indices; the unknowns stand by index.
// What goes out: the least widths that satisfy every type, or false.
#![tactic(auto)]

ghost use Rattle.std.specs.Prelude.{◌≡◌, List, length};
ghost use Rattle.type_value.specs.Terms.{Term};
ghost use Rattle.typing.specs.Solved.{Coded, Answer};

use language::Plan;
use type_value::width_at;

// The least widths that satisfy every type, or false and every cell 0 where none from 0 to 32 do.
// From zeros a width only rises, and after each rise the round starts again at 0. With 16 ports, which come first, and 8 memories, which no type mentions:
// at most 16 * 32 rises of ports with 16 evaluations each, one rise of each memory with 24, and a last round of 24: 8,408 evaluations in all.
pub fn solve(code: &[u32], starts: &[usize], ends: &[usize], ws: &mut [u32]) -> bool
    requires coded { (ts : List Term) × Coded ts code.now starts.now ends.now }
    requires ws_len { length ws.old ≡ length starts.now }
    ensures { (ts : List Term) → Coded ts code.now starts.now ends.now → Answer result ts ws.new }
{
    ws.fill(0);
    // A `while`, as i also goes back.
    let mut i = 0;
    while i < starts.len() {
        let v = width_at(code, starts[i], ends[i], ws);
        if u64::from(Plan::WIDTH) < v {
            ws.fill(0);
            return false;
        }
        let w = v as u32;
        if w == ws[i] {
            i += 1;
        } else {
            ws[i] = w;
            i = 0;
        }
    }
    true
}
