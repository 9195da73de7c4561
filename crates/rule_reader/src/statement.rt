// Statements: assignments, and the bindings of `let`.
ghost use Rattle.std.specs.Prelude.{◌≡◌, true};
ghost use Rattle.signs.specs.Kinds.{name_kind};
ghost use Rattle.readers.specs.Marks.{is_memory, value_at};
ghost use Rattle.readers.specs.Meets.{Room, Starts, came};
ghost use Rattle.rule_reader.specs.States.{IsAssignment, IsBinding, IsVal};

use expression_reader::expr;
use readers::{Items, Misfit, Table, expect, memory};
use signs::kinds;
use tape::{ASSIGN, VAL, WRITE};
use type_reader::declared;

// A name and what is written to it, with an address where it is a memory.
pub fn assignment(words: &Table, items: &mut Items, at: usize) -> Result<usize, Misfit>
    requires { Starts words.now at items.old.n name_kind }
    ensures { IsAssignment words.now at items.old.n items.old.tape (came result items.new.n) items.new.tape }
{
    if memory(words, at) {
        return write(words, items, at);
    }
    let x = expect(words, at + 1, kinds::EQUALS)?;
    let y = expr(words, items, x, false)?;
    let z = expect(words, y, kinds::SEMICOLON)?;
    items.put(words, at, ASSIGN, 0);
    Ok(z)
}

// A memory, its address, and what is written there.
fn write(words: &Table, items: &mut Items, at: usize) -> Result<usize, Misfit>
    requires starts { Starts words.now at items.old.n name_kind }
    requires at_value { is_memory (value_at words.now at) ≡ true }
    ensures { IsAssignment words.now at items.old.n items.old.tape (came result items.new.n) items.new.tape }
{
    let x = expect(words, at + 1, kinds::BRACKET)?;
    let y = expr(words, items, x, false)?;
    let z = expect(words, y, kinds::UNBRACKET)?;
    let value = expect(words, z, kinds::EQUALS)?;
    let past = expr(words, items, value, false)?;
    let end = expect(words, past, kinds::SEMICOLON)?;
    items.put(words, at, WRITE, 0);
    Ok(end)
}

// What follows `val`: a type or none, a name, its value.
pub fn val(words: &Table, items: &mut Items, at: usize) -> Result<usize, Misfit>
    requires { Room words.now at items.old.n }
    ensures { IsVal words.now at items.old.n items.old.tape (came result items.new.n) items.new.tape }
{
    let (x, typed) = declared(words, items, at)?;
    binding(words, items, x, u32::from(typed))
}

// A name and its value, after a type that is on the tape or none.
fn binding(words: &Table, items: &mut Items, at: usize, typed: u32) -> Result<usize, Misfit>
    requires { Room words.now at items.old.n }
    ensures { IsBinding words.now at items.old.n items.old.tape (came result items.new.n) items.new.tape typed }
{
    let x = expect(words, at, kinds::NAME)?;
    let y = expect(words, x, kinds::EQUALS)?;
    let z = expr(words, items, y, false)?;
    let end = expect(words, z, kinds::SEMICOLON)?;
    items.put(words, at, VAL, typed);
    Ok(end)
}
