// The marks of names: which are spelled `p` and `type`, and which are among the memories.
// What comes in: the text, the table of its words, and the items of a head, its memories among them, or no items.
// What goes out: the table, whose names are marked.
#![tactic(auto)]

ghost use Rattle.std.specs.Prelude.{◌≡◌, drop};
ghost use Rattle.language.specs.Text.{same, among};
ghost use Rattle.language.specs.Words.{span, name_byte};
ghost use Rattle.readers.specs.Marks.{count};
ghost use Rattle.name_marks.specs.Marking.{IsSpelled, name_mark, memories_on, Remarked, Tabled, Taped};

use readers::{COUNT, IS_MEMORY, IS_P, IS_TYPE, Items, Table};
use signs::kinds;
use tape::MEMORY;

// Whether a name stands at a place.
fn stands(text: &[u8], at: usize, name: &[u8]) -> bool
    ensures { result ≡ same (span name_byte (drop at text.now)) name.now }
{
    spans::part(text, at, spans::run(text, at)) == name
}

// Whether a name is among the memories on the tape.
fn remembered(text: &[u8], items: &Items, name: &[u8]) -> bool
    requires { Taped items.now.tape items.now.n }
    ensures { result ≡ among (memories_on text.now items.now.tape items.now.n) name.now }
{
    let (triples, _) = items.tape[..items.n].as_chunks::<3>();
    triples.iter().any(|&[op, at, _]| op == MEMORY && stands(text, at as usize, name))
}

const P: &[u8] = b"p";

const TYPE: &[u8] = b"type";

// The mark of a name by its spelling. No `match` on byte strings; tried: the check knows of such an arm the length alone.
fn spelled(name: &[u8]) -> u32
    ensures { IsSpelled name.now result }
{
    if name == P {
        IS_P
    } else if name == TYPE {
        IS_TYPE
    } else {
        0
    }
}

// The mark of a name, where the memories are on the tape.
fn value(text: &[u8], items: &Items, name: &[u8]) -> u32
    requires { Taped items.now.tape items.now.n }
    ensures { result ≡ name_mark (memories_on text.now items.now.tape items.now.n) name.now }
{
    spelled(name) + IS_MEMORY * u32::from(remembered(text, items, name))
}

// Marks each name of the table.
#[tactic(auto, unfolding(readers::specs::Marks::count))]
pub fn mark(text: &[u8], words: &mut Table, items: &Items)
    requires tabled { Tabled words.old }
    requires taped { Taped items.now.tape items.now.n }
    ensures { Remarked text.now (memories_on text.now items.now.tape items.now.n) (count words.old) words.old words.new }
{
    for i in 0..words[COUNT] as usize {
        if words[4 * i] == kinds::NAME {
            let (at, long) = (words[4 * i + 1] as usize, words[4 * i + 2] as usize);
            words[4 * i + 3] = value(text, items, spans::part(text, at, long));
        }
    }
}
