// From the text to the tape: its words, their marks, the head, and what follows it.
ghost use Rattle.std.specs.Prelude.{◌≡◌, ◌≤◌};
ghost use Rattle.tape.specs.Tape.{most_items};
ghost use Rattle.readers.specs.Marks.{count};
ghost use Rattle.readers.specs.Meets.{Room, came};
ghost use Rattle.name_marks.specs.Marking.{Taped};
ghost use Rattle.syntax.specs.Read.{Filed, IsEnding, IsParsed, IsTree, Listed, Ready, Roomy, place_or, refusal, said_of, tape_after, words_after, words_said};

use head_reader::head;
use language::{Refusal, Text};
use name_marks::mark;
use readers::{COUNT, Items, Misfit, Table, Tape, expect, place};
use rule_reader::constraint;
use signs::kinds;
use tape::LENGTH;

const BYTES: usize = language::Actor::BYTES as usize;

// The groups after the head, a brace, and the end of the words.
fn ending(words: &Table, items: &mut Items, at: usize) -> Result<usize, Misfit>
    requires { Room words.now at items.old.n }
    ensures { IsEnding words.now at items.old.n items.old.tape (came result items.new.n) items.new.tape }
{
    let x = constraint(words, items, at)?;
    let end = expect(words, x, kinds::UNBRACE)?;
    if end != words[COUNT] as usize {
        return Err(Misfit { at: end });
    }
    Ok(end)
}

// The whole actor: which names are memories is known after its head.
fn tree(text: &[u8], words: &mut Table, items: &mut Items) -> Result<usize, Misfit>
    requires ready { Ready text.now words.old }
    requires none { items.old.n ≡ 0 }
    requires taped { Taped items.old.tape 0 }
    ensures { IsTree text.now words.old items.old.tape (came result items.new.n) words.new items.new.tape }
{
    let x = head(words, items, 0)?;
    mark(text, words, items);
    ending(words, items, x)
}

// The place of a word, or the end of the text where there is none.
fn place_or(words: &Table, at: usize, end: u32) -> u32
    requires { count words.now ≤ most_items }
    ensures { result ≡ place_or end words.now at }
{
    if at < words[COUNT] as usize {
        place(words, at)
    } else {
        end
    }
}

// The actor's text is refused.
fn refused(row: u32, place: u32) -> Result<u32, Refusal>
    ensures { result ≡ refusal row place }
{
    Err(Refusal {
        row,
        text: Text::Actor,
        place,
    })
}

// Row 5. The tape is lent to no reader, so that a refusal leaves it as it stood.
fn parsed(text: &[u8], words: &mut Table, tape: &mut Tape) -> Result<u32, Refusal>
    requires { Filed text.now words.old }
    ensures { IsParsed text.now words.old tape.old result tape.new }
{
    let mut items = Items {
        tape: [0; LENGTH],
        n: 0,
    };
    mark(text, words, &items);
    match tree(text, words, &mut items) {
        Ok(_) => {
            let n = items.n;
            tape[..n].copy_from_slice(&items.tape[..n]);
            Ok(n as u32)
        }
        Err(e) => {
            let place = place_or(words, e.at, text.len() as u32);
            refused(5, place)
        }
    }
}

// Row 4, where n words are in the table.
fn listed(text: &[u8], words: &mut Table, n: u32, tape: &mut Tape) -> Result<u32, Refusal>
    requires { Listed text.now words.old n }
    ensures answer { result ≡ words_said text.now }
    ensures tape { tape.new ≡ words_after text.now tape.old }
    ensures room { Roomy result }
{
    match words::left_out(words, n as usize) {
        Some(place) => refused(4, place),
        None => {
            words[COUNT] = n;
            parsed(text, words, tape)
        }
    }
}

// Rows 1, 3, 4 and 5 of an actor's text, in this order.
pub fn read(text: &[u8], tape: &mut Tape) -> Result<u32, Refusal>
    ensures answer { result ≡ said_of text.now }
    ensures tape { tape.new ≡ tape_after text.now tape.old }
    ensures room { Roomy result }
{
    if text.len() > BYTES {
        return refused(1, language::Actor::BYTES);
    }
    let mut table = [0u32; COUNT + 1];
    match words::words(text, &mut table) {
        Ok(n) => listed(text, &mut table, n, tape),
        Err(words::Fault::Bad(place)) => refused(3, place),
        // a text within its limit has room
        Err(words::Fault::NoRoom) => refused(3, 0),
    }
}
