// Expressions: `if`, choices, operators by their levels, operands.
// What comes in: the words, the items on the tape, the index of the first word; whether a `|` that ends an arm may follow. What goes
// out: the items of what was read, after those that are on the tape, and the index of the next word, or the first word that does not fit.
#![tactic(auto)]

ghost use Rattle.std.specs.Prelude.{◌≤◌};
ghost use Rattle.language.specs.Grammar.{loosest};
ghost use Rattle.signs.specs.Kinds.{brace_kind, case_kind, if_kind, name_kind, number_kind, open_kind, rest_kind};
ghost use Rattle.readers.specs.Meets.{Room, Starts, came};
ghost use Rattle.expression_reader.specs.Expressions.{StartsMark, IsExpr, IsChoices, IsBinary, IsOperators, IsParts, IsArms};
ghost use Rattle.type_reader.specs.Types.{IsOperand};

use readers::{
    Items, LOOSEST, Misfit, Table, arm_ends, expect, kind, level, memory, prefix, value,
};
use signs::kinds;
use tape::{
    ARM, BESIDE, CELL, CHOICE, COPIES, DEFAULT, EITHER, INSIDE, JOINED, READ, SELECT, SELECTED,
};
use type_reader::{constant, part, typed};

#[cycle(expressions)]
pub fn expr(words: &Table, items: &mut Items, at: usize, arm: bool) -> Result<usize, Misfit>
    requires { Room words.now at items.old.n }
    ensures { IsExpr words.now at items.old.n items.old.tape (came result items.new.n) items.new.tape arm }
{
    if kind(words, at) == kinds::IF {
        return either(words, items, at, arm);
    }
    let x = binary(words, items, at, LOOSEST, arm)?;
    choices(words, items, x, arm)
}

// `if`, `then`, `else`.
#[cycle(expressions)]
fn either(words: &Table, items: &mut Items, at: usize, arm: bool) -> Result<usize, Misfit>
    requires { Starts words.now at items.old.n if_kind }
    ensures { IsExpr words.now at items.old.n items.old.tape (came result items.new.n) items.new.tape arm }
{
    let x = expr(words, items, at + 1, false)?;
    let then = expect(words, x, kinds::THEN)?;
    let y = expr(words, items, then, false)?;
    let other = expect(words, y, kinds::ELSE)?;
    let z = expr(words, items, other, arm)?;
    items.put(words, at, EITHER, 0);
    Ok(z)
}

// What follows an expression that is on the tape: `?` and `:`, grouped to the left.
#[cycle(expressions)]
fn choices(words: &Table, items: &mut Items, at: usize, arm: bool) -> Result<usize, Misfit>
    requires { Room words.now at items.old.n }
    ensures { IsChoices words.now at items.old.n items.old.tape (came result items.new.n) items.new.tape arm }
{
    let mut x = at;
    while kind(words, x) == kinds::ASK {
        x = expr(words, items, x + 1, false)?;
        x = expect(words, x, kinds::COLON)?;
        x = binary(words, items, x, LOOSEST, arm)?;
        items.emit(CHOICE, 0);
    }
    Ok(x)
}

// Operands with operators of the levels below `below` between them.
#[cycle(expressions)]
fn binary(
    words: &Table,
    items: &mut Items,
    at: usize,
    below: u32,
    arm: bool,
) -> Result<usize, Misfit>
    requires room { Room words.now at items.old.n }
    requires below_le_loosest { below ≤ loosest }
    ensures { IsBinary words.now at items.old.n items.old.tape (came result items.new.n) items.new.tape below arm }
{
    let x = operand(words, items, at)?;
    operators(words, items, x, below, arm)
}

// What follows an operand that is on the tape.
#[cycle(expressions)]
fn operators(
    words: &Table,
    items: &mut Items,
    at: usize,
    below: u32,
    arm: bool,
) -> Result<usize, Misfit>
    requires room { Room words.now at items.old.n }
    requires below_le_loosest { below ≤ loosest }
    ensures { IsOperators words.now at items.old.n items.old.tape (came result items.new.n) items.new.tape below arm }
{
    let mut x = at;
    loop {
        let k = kind(words, x);
        let l = level(k);
        if arm_ends(words, x, arm) || l >= below {
            return Ok(x);
        }
        x = binary(words, items, x + 1, l, arm)?;
        items.binary_item(k);
    }
}

#[cycle(expressions)]
fn operand(words: &Table, items: &mut Items, at: usize) -> Result<usize, Misfit>
    requires { Room words.now at items.old.n }
    ensures { IsOperand words.now at items.old.n items.old.tape (came result items.new.n) items.new.tape }
{
    let k = kind(words, at);
    match k {
        kinds::NUMBER => number(words, items, at),
        kinds::NAME => named(words, items, at),
        kinds::CASE => select(words, items, at),
        kinds::OPEN => inside(words, items, at),
        kinds::BRACE => joined(words, items, at),
        kinds::LESS => typed(words, items, at),
        _ if prefix(k) => unary(words, items, at, k),
        _ => Err(Misfit { at }),
    }
}

// A number: how many copies there are, or a constant.
#[cycle(expressions)]
fn number(words: &Table, items: &mut Items, at: usize) -> Result<usize, Misfit>
    requires { Starts words.now at items.old.n number_kind }
    ensures { IsOperand words.now at items.old.n items.old.tape (came result items.new.n) items.new.tape }
{
    if kind(words, at + 1) != kinds::BRACE {
        return constant(words, items, at);
    }
    let x = expr(words, items, at + 2, false)?;
    let y = expect(words, x, kinds::UNBRACE)?;
    items.put(words, at, COPIES, value(words, at));
    Ok(y)
}

// A name: a cell of a memory, or what is read, with bit positions.
#[cycle(expressions)]
fn named(words: &Table, items: &mut Items, at: usize) -> Result<usize, Misfit>
    requires { Starts words.now at items.old.n name_kind }
    ensures { IsOperand words.now at items.old.n items.old.tape (came result items.new.n) items.new.tape }
{
    if !memory(words, at) {
        items.put(words, at, READ, 0);
        return part(words, items, at + 1);
    }
    let x = expect(words, at + 1, kinds::BRACKET)?;
    let y = expr(words, items, x, false)?;
    let z = expect(words, y, kinds::UNBRACKET)?;
    items.put(words, at, CELL, 0);
    Ok(z)
}

// An expression in parentheses, with bit positions.
#[cycle(expressions)]
fn inside(words: &Table, items: &mut Items, at: usize) -> Result<usize, Misfit>
    requires { Starts words.now at items.old.n open_kind }
    ensures { IsOperand words.now at items.old.n items.old.tape (came result items.new.n) items.new.tape }
{
    let x = expr(words, items, at + 1, false)?;
    let y = expect(words, x, kinds::CLOSE)?;
    items.put(words, at, INSIDE, 0);
    part(words, items, y)
}

// A concatenation.
#[cycle(expressions)]
fn joined(words: &Table, items: &mut Items, at: usize) -> Result<usize, Misfit>
    requires { Starts words.now at items.old.n brace_kind }
    ensures { IsOperand words.now at items.old.n items.old.tape (came result items.new.n) items.new.tape }
{
    let x = expr(words, items, at + 1, false)?;
    let y = parts(words, items, x)?;
    let z = expect(words, y, kinds::UNBRACE)?;
    items.put(words, at, JOINED, 0);
    Ok(z)
}

// What follows a part that is on the tape.
#[cycle(expressions)]
fn parts(words: &Table, items: &mut Items, at: usize) -> Result<usize, Misfit>
    requires { Room words.now at items.old.n }
    ensures { IsParts words.now at items.old.n items.old.tape (came result items.new.n) items.new.tape }
{
    let mut x = at;
    while kind(words, x) == kinds::COMMA {
        x = expr(words, items, x + 1, false)?;
        items.emit(BESIDE, 0);
    }
    Ok(x)
}

// An operator before its operand.
#[cycle(expressions)]
fn unary(words: &Table, items: &mut Items, at: usize, k: u32) -> Result<usize, Misfit>
    requires { StartsMark words.now at items.old.n k }
    ensures { IsOperand words.now at items.old.n items.old.tape (came result items.new.n) items.new.tape }
{
    let x = operand(words, items, at + 1)?;
    items.unary_item(words, at, k);
    Ok(x)
}

// A case: its selector, then its arms.
#[cycle(expressions)]
fn select(words: &Table, items: &mut Items, at: usize) -> Result<usize, Misfit>
    requires { Starts words.now at items.old.n case_kind }
    ensures { IsOperand words.now at items.old.n items.old.tape (came result items.new.n) items.new.tape }
{
    let x = expect(words, at + 1, kinds::OPEN)?;
    let y = expr(words, items, x, false)?;
    let z = expect(words, y, kinds::CLOSE)?;
    let first = expect(words, z, kinds::BRACE)?;
    items.put(words, at, SELECT, 0);
    let end = arms(words, items, first)?;
    items.put(words, at, SELECTED, 0);
    Ok(end)
}

// The arms, to their `}`.
#[cycle(expressions)]
fn arms(words: &Table, items: &mut Items, at: usize) -> Result<usize, Misfit>
    requires { Room words.now at items.old.n }
    ensures { IsArms words.now at items.old.n items.old.tape (came result items.new.n) items.new.tape }
{
    match kind(words, at) {
        kinds::NUMBER => labelled(words, items, at),
        kinds::DEFAULT => default(words, items, at),
        _ => Err(Misfit { at }),
    }
}

// An arm with its label, and the arms after it.
#[cycle(expressions)]
fn labelled(words: &Table, items: &mut Items, at: usize) -> Result<usize, Misfit>
    requires { Starts words.now at items.old.n number_kind }
    ensures { IsArms words.now at items.old.n items.old.tape (came result items.new.n) items.new.tape }
{
    let x = expect(words, at + 1, kinds::ARROW)?;
    let y = expr(words, items, x, true)?;
    let z = expect(words, y, kinds::BAR)?;
    let end = arms(words, items, z)?;
    items.put(words, at, ARM, value(words, at));
    Ok(end)
}

// The last arm.
#[cycle(expressions)]
fn default(words: &Table, items: &mut Items, at: usize) -> Result<usize, Misfit>
    requires { Starts words.now at items.old.n rest_kind }
    ensures { IsArms words.now at items.old.n items.old.tape (came result items.new.n) items.new.tape }
{
    let x = expect(words, at + 1, kinds::ARROW)?;
    let y = expr(words, items, x, false)?;
    let z = expect(words, y, kinds::UNBRACE)?;
    items.put(words, at, DEFAULT, 0);
    Ok(z)
}
