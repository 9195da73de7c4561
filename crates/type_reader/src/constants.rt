// Constants, names and bit positions: what of an operand holds no expression.
ghost use Rattle.std.specs.Prelude.{◌≡◌, ◌+◌};
ghost use Rattle.signs.specs.Kinds.{brace_kind, less_kind, number_kind};
ghost use Rattle.readers.specs.Marks.{kind_at};
ghost use Rattle.readers.specs.Meets.{Room, Starts, came};
ghost use Rattle.type_reader.specs.Types.{Shuts, Valued, IsOperand, IsPart, IsAmount, IsPositions};

use crate::typ;
use readers::{Items, Misfit, Table, expect, kind, value};
use signs::kinds;
use tape::{BIT, BITS, GIVEN, PLAIN, RANGE, TYPED, VALUE};

// The value of a sized constant, whose width is on the tape: digits, or `'d` and an environment name.
fn amount(words: &Table, items: &mut Items, at: usize) -> Result<usize, Misfit>
    requires { Room words.now at items.old.n }
    ensures { IsAmount words.now at items.old.n items.old.tape (came result items.new.n) items.new.tape }
{
    if kind(words, at) == kinds::DIGITS {
        items.put(words, at, GIVEN, 0);
        return Ok(at + 1);
    }
    let x = expect(words, at, kinds::VALUE)?;
    let y = expect(words, x, kinds::NAME)?;
    items.put(words, x, VALUE, 0);
    Ok(y)
}

// A number that is no count of copies: the width of a constant, or a constant itself.
pub fn constant(words: &Table, items: &mut Items, at: usize) -> Result<usize, Misfit>
    requires starts { Starts words.now at items.old.n number_kind }
    requires fact { kind_at words.now (at + 1) ≡ brace_kind → ⊥ }
    ensures { IsOperand words.now at items.old.n items.old.tape (came result items.new.n) items.new.tape }
{
    match kind(words, at + 1) {
        kinds::DIGITS | kinds::VALUE => width(words, items, at),
        _ => {
            items.put(words, at, PLAIN, value(words, at));
            Ok(at + 1)
        }
    }
}

// A width, and what it holds.
fn width(words: &Table, items: &mut Items, at: usize) -> Result<usize, Misfit>
    requires starts { Starts words.now at items.old.n number_kind }
    requires valued { Valued words.now (at + 1) }
    ensures { IsOperand words.now at items.old.n items.old.tape (came result items.new.n) items.new.tape }
{
    items.put(words, at, BITS, value(words, at));
    amount(words, items, at + 1)
}

// A constant whose width is a type in `< >`.
pub fn typed(words: &Table, items: &mut Items, at: usize) -> Result<usize, Misfit>
    requires { Starts words.now at items.old.n less_kind }
    ensures { IsOperand words.now at items.old.n items.old.tape (came result items.new.n) items.new.tape }
{
    let x = typ(words, items, at + 1)?;
    let y = expect(words, x, kinds::GREATER)?;
    items.put(words, at, TYPED, 0);
    amount(words, items, y)
}

// What follows a name or parentheses that are on the tape: bit positions, or nothing.
pub fn part(words: &Table, items: &mut Items, at: usize) -> Result<usize, Misfit>
    requires { Room words.now at items.old.n }
    ensures { IsPart words.now at items.old.n items.old.tape (came result items.new.n) items.new.tape }
{
    if kind(words, at) != kinds::BRACKET {
        return Ok(at);
    }
    let x = typ(words, items, at + 1)?;
    positions(words, items, at, x)
}

// What follows the first bit position: the `[` stands at `from`.
fn positions(words: &Table, items: &mut Items, from: usize, at: usize) -> Result<usize, Misfit>
    requires { Shuts words.now from at items.old.n }
    ensures { IsPositions words.now from at items.old.n items.old.tape (came result items.new.n) items.new.tape }
{
    if kind(words, at) == kinds::UNBRACKET {
        items.put(words, from, BIT, 0);
        return Ok(at + 1);
    }
    let x = expect(words, at, kinds::COLON)?;
    let y = typ(words, items, x)?;
    let z = expect(words, y, kinds::UNBRACKET)?;
    items.put(words, from, RANGE, 0);
    Ok(z)
}
