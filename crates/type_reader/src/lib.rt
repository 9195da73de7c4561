// Types, and what else of an expression holds no expression: constants and bit positions.
// What comes in: the words, the items on the tape, the index of the first word. What goes out: the items of what was read,
// after those that are on the tape, and the index of the next word, or the first word that does not fit.
#![tactic(auto)]

mod constants;

ghost use Rattle.std.specs.Prelude.{◌+◌, ◌-◌, ◌≤◌};
ghost use Rattle.tape.specs.Tape.{LOG, FLOOR};
ghost use Rattle.signs.specs.Kinds.{log_kind, max_kind, name_kind, number_kind, open_kind};
ghost use Rattle.readers.specs.Meets.{Room, Starts, came};
ghost use Rattle.type_reader.specs.Types.{IsType, IsTerm, IsSums, IsEntries, IsDeclared};

pub use constants::{constant, part, typed};
use readers::{Items, Misfit, Table, expect, kind, sum, the_type, value};
use signs::kinds;
use tape::{CEIL, ENTRY, ENVIRONMENT, FLOOR, LOG, MOST, NUMBER, PORT, WITHIN};

#[cycle(types)]
pub fn typ(words: &Table, items: &mut Items, at: usize) -> Result<usize, Misfit>
    requires { Room words.now at items.old.n }
    ensures { IsType words.now at items.old.n items.old.tape (came result items.new.n) items.new.tape }
{
    let x = term(words, items, at)?;
    sums(words, items, x)
}

// What follows a term that is on the tape.
#[cycle(types)]
fn sums(words: &Table, items: &mut Items, at: usize) -> Result<usize, Misfit>
    requires { Room words.now at items.old.n }
    ensures { IsSums words.now at items.old.n items.old.tape (came result items.new.n) items.new.tape }
{
    let mut x = at;
    loop {
        let op = sum(kind(words, x));
        if op == 0 {
            return Ok(x);
        }
        x = term(words, items, x + 1)?;
        items.emit(op, 0);
    }
}

#[cycle(types)]
fn term(words: &Table, items: &mut Items, at: usize) -> Result<usize, Misfit>
    requires { Room words.now at items.old.n }
    ensures { IsTerm words.now at items.old.n items.old.tape (came result items.new.n) items.new.tape }
{
    match kind(words, at) {
        kinds::NUMBER => number(words, items, at),
        kinds::NAME => environment(words, items, at),
        kinds::MAX => most(words, items, at),
        kinds::LOG => function(words, items, at, LOG),
        kinds::CEIL => function(words, items, at, CEIL),
        kinds::FLOOR => function(words, items, at, FLOOR),
        kinds::OPEN => within(words, items, at),
        _ => Err(Misfit { at }),
    }
}

fn number(words: &Table, items: &mut Items, at: usize) -> Result<usize, Misfit>
    requires { Starts words.now at items.old.n number_kind }
    ensures { IsTerm words.now at items.old.n items.old.tape (came result items.new.n) items.new.tape }
{
    items.put(words, at, NUMBER, value(words, at));
    Ok(at + 1)
}

// An environment name, or a port's with `.type` after it.
fn environment(words: &Table, items: &mut Items, at: usize) -> Result<usize, Misfit>
    requires { Starts words.now at items.old.n name_kind }
    ensures { IsTerm words.now at items.old.n items.old.tape (came result items.new.n) items.new.tape }
{
    if kind(words, at + 1) != kinds::DOT {
        items.put(words, at, ENVIRONMENT, 0);
        return Ok(at + 1);
    }
    if !the_type(words, at + 2) {
        return Err(Misfit { at: at + 2 });
    }
    items.put(words, at, PORT, 0);
    Ok(at + 3)
}

// `log`, `ceil` or `floor` of a type.
#[cycle(types)]
fn function(words: &Table, items: &mut Items, at: usize, op: u32) -> Result<usize, Misfit>
    requires starts { Starts words.now at items.old.n (op + (log_kind - LOG)) }
    requires le_op { LOG ≤ op }
    requires op_bound { op ≤ FLOOR }
    ensures { IsTerm words.now at items.old.n items.old.tape (came result items.new.n) items.new.tape }
{
    let x = expect(words, at + 1, kinds::OPEN)?;
    let y = typ(words, items, x)?;
    let z = expect(words, y, kinds::CLOSE)?;
    items.put(words, at, op, 0);
    Ok(z)
}

// `max` of its entries.
#[cycle(types)]
fn most(words: &Table, items: &mut Items, at: usize) -> Result<usize, Misfit>
    requires { Starts words.now at items.old.n max_kind }
    ensures { IsTerm words.now at items.old.n items.old.tape (came result items.new.n) items.new.tape }
{
    let x = expect(words, at + 1, kinds::OPEN)?;
    let y = typ(words, items, x)?;
    let z = entries(words, items, y)?;
    let end = expect(words, z, kinds::CLOSE)?;
    items.put(words, at, MOST, 0);
    Ok(end)
}

// What follows an entry that is on the tape.
#[cycle(types)]
fn entries(words: &Table, items: &mut Items, at: usize) -> Result<usize, Misfit>
    requires { Room words.now at items.old.n }
    ensures { IsEntries words.now at items.old.n items.old.tape (came result items.new.n) items.new.tape }
{
    let mut x = at;
    while kind(words, x) == kinds::COMMA {
        x = typ(words, items, x + 1)?;
        items.emit(ENTRY, 0);
    }
    Ok(x)
}

// A type in parentheses.
#[cycle(types)]
fn within(words: &Table, items: &mut Items, at: usize) -> Result<usize, Misfit>
    requires { Starts words.now at items.old.n open_kind }
    ensures { IsTerm words.now at items.old.n items.old.tape (came result items.new.n) items.new.tape }
{
    let x = typ(words, items, at + 1)?;
    let y = expect(words, x, kinds::CLOSE)?;
    items.put(words, at, WITHIN, 0);
    Ok(y)
}

// A declared type, in `< >`, or none: the index of the next word, and whether there is one.
pub fn declared(words: &Table, items: &mut Items, at: usize) -> Result<(usize, bool), Misfit>
    requires { Room words.now at items.old.n }
    ensures { IsDeclared words.now at items.old.n items.old.tape result items.new.n items.new.tape }
{
    if kind(words, at) != kinds::LESS {
        return Ok((at, false));
    }
    let x = typ(words, items, at + 1)?;
    let y = expect(words, x, kinds::GREATER)?;
    Ok((y, true))
}
