// The simulator as its users meet it: `read` makes a plan of an actor's text with its bindings, `line` shows the line of a
// fault, `cycle` and `run` run cycles from a plan. What comes in: texts, tables, masks and values, of any kind. What goes
// out: an answer for each, with the plan, the memory and the outputs, or these as they stood.
#![tactic(auto)]

pub use cycle::{cycle, run};
pub use language::Refusal;
pub use lines::line;
pub use plan_answer::Answer;

mod plans;

ghost use Rattle.tape.specs.Tape.{longest};
ghost use Rattle.std.specs.Prelude.{◌≡◌, List, ◌≤◌, length};
ghost use Rattle.language.specs.Limits.{limits};
ghost use Rattle.language.specs.Words.{Word};
ghost use Rattle.language.specs.Tree.{Actor};
ghost use Rattle.language.specs.Bindings.{Bindings};
ghost use Rattle.language.specs.Reading.{worded as reading_worded};
ghost use Rattle.row09_bindings.specs.Lines.{Binds};
ghost use Rattle.tipi.specs.Told.{Read, After, JudgedTold};
ghost use Rattle.early_rows.specs.Verdicts.{TextsHeld};
ghost use Rattle.plan_answer.specs.Answered.{Refused};

use bindings::{Bound, Fault};
use early_rows::first;
use language::Text;
use plans::planned;

// Rows 6 to 13, of an actor that the grammar takes.
fn judged(text: &[u8], tape: &[u32], n: usize, bound: Bound, plan: &mut [u32]) -> Answer
    requires n_in_bounds { (n ≤ length tape.now) × (n ≤ longest) }
    requires texts_held { (ws : List Word) × (a : Actor) × (b : Bindings) × TextsHeld text.now tape.now n bound ws a b }
    ensures { JudgedTold text.now tape.now n bound.entry result plan.old plan.new }
{
    first(text, tape, n, bound)?;
    planned(text, tape, n, bound, plan)
}

// Rows 3 to 13, with the bindings as they are read.
fn worded(text: &[u8], bound: Bound, plan: &mut [u32]) -> Answer
    requires text_len_bound { length text.now ≤ limits.actor }
    requires binds { (b : Bindings) × Binds bound.text.now bound.table.now bound.lines b }
    ensures { (b : Bindings) → Binds bound.entry.text.now bound.entry.table.now bound.entry.lines b → After (reading_worded text.now b) result plan.old plan.new }
{
    let mut tape = [0u32; tape::LENGTH];
    let n = syntax::read(text, &mut tape)? as usize;
    judged(text, &tape, n, bound, plan)
}

// An actor's text with its bindings, read into a plan at the start of a table.
pub fn read(text: &[u8], bindings: &[u8], plan: &mut [u32]) -> Answer
    ensures { Read text.now bindings.now result plan.old plan.new }
{
    if (language::Actor::BYTES as usize) < text.len() {
        return refused(1, Text::Actor, language::Actor::BYTES);
    }
    if (language::Bindings::BYTES as usize) < bindings.len() {
        return refused(1, Text::Bindings, language::Bindings::BYTES);
    }
    let mut table = [0u32; bindings::NUMBERS];
    match bindings::read(bindings, &mut table) {
        Ok(lines) => {
            let bound = Bound {
                text: bindings,
                table: &table,
                lines,
            };
            worded(text, bound, plan)
        }
        Err(Fault::Wrong(p)) => refused(2, Text::Bindings, p),
        // a text within its limit has room in this table
        Err(Fault::NoRoom) => refused(2, Text::Bindings, 0),
    }
}

// There is no plan, and why.
fn refused(row: u32, text: Text, place: u32) -> Answer
    ensures { result ≡ Refused row text place }
{
    Err(Refusal { row, text, place })
}
