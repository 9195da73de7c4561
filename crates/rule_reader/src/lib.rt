// Rules and groups: the lists of statements, the rules with their entries, and the constraint that ends an actor.
// What comes in: the words, the items on the tape, the index of the first word. What goes out: the items of what was read,
// after those that are on the tape, and the index of the next word, or the first word that does not fit.
#![tactic(auto)]

mod lists;
mod statement;

ghost use Rattle.signs.specs.Kinds.{and_kind, let_kind, name_kind, or_kind};
ghost use Rattle.readers.specs.Meets.{Room, Starts, came};
ghost use Rattle.rule_reader.specs.Rules.{IsVals, IsAssignments, IsScoped, IsStatements, IsRule, IsRules, IsGroup, IsGroups, IsConstraint};
ghost use Rattle.rule_reader.specs.Tails.{IsWritten, IsBody};

use crate::lists::entries;
use crate::statement::{assignment, val};
use readers::{Items, Misfit, Table, expect, kind};
use signs::kinds;
use tape::{END, GROUPED, LET, OR, RULE, RULED};

// A list is read by a loop of none or more; where one or more is asked for, the first word is tested before. Why the loops are not
// one function is said in readers/src/lib.rt.
fn vals(words: &Table, items: &mut Items, at: usize) -> Result<usize, Misfit>
    requires { Room words.now at items.old.n }
    ensures { IsVals words.now at items.old.n items.old.tape (came result items.new.n) items.new.tape }
{
    let mut x = at;
    while kind(words, x) == kinds::VAL {
        x = val(words, items, x + 1)?;
    }
    Ok(x)
}

fn assignments(words: &Table, items: &mut Items, at: usize) -> Result<usize, Misfit>
    requires { Room words.now at items.old.n }
    ensures { IsAssignments words.now at items.old.n items.old.tape (came result items.new.n) items.new.tape }
{
    let mut x = at;
    while kind(words, x) == kinds::NAME {
        x = assignment(words, items, x)?;
    }
    Ok(x)
}

// `let` with its `val`s, then `in` and what it ends with.
fn scoped(words: &Table, items: &mut Items, at: usize) -> Result<usize, Misfit>
    requires { Starts words.now at items.old.n let_kind }
    ensures { IsScoped words.now at items.old.n items.old.tape (came result items.new.n) items.new.tape }
{
    expect(words, at + 1, kinds::VAL)?;
    items.emit(LET, 0);
    let x = vals(words, items, at + 1)?;
    let y = expect(words, x, kinds::IN)?;
    written(words, items, y)
}

// The assignments of a `let` whose `val`s are on the tape, and `end`.
fn written(words: &Table, items: &mut Items, at: usize) -> Result<usize, Misfit>
    requires { Room words.now at items.old.n }
    ensures { IsWritten words.now at items.old.n items.old.tape (came result items.new.n) items.new.tape }
{
    expect(words, at, kinds::NAME)?;
    let x = assignments(words, items, at)?;
    let y = expect(words, x, kinds::END)?;
    items.emit(END, 0);
    Ok(y)
}

fn statements(words: &Table, items: &mut Items, at: usize) -> Result<usize, Misfit>
    requires { Room words.now at items.old.n }
    ensures { IsStatements words.now at items.old.n items.old.tape (came result items.new.n) items.new.tape }
{
    let mut x = at;
    loop {
        x = match kind(words, x) {
            kinds::NAME => assignment(words, items, x)?,
            kinds::LET => scoped(words, items, x)?,
            _ => return Ok(x),
        };
    }
}

// A rule: its name, its entries in parentheses, its body in braces.
fn rule(words: &Table, items: &mut Items, at: usize) -> Result<usize, Misfit>
    requires { Starts words.now at items.old.n name_kind }
    ensures { IsRule words.now at items.old.n items.old.tape (came result items.new.n) items.new.tape }
{
    let x = expect(words, at + 1, kinds::OPEN)?;
    items.put(words, at, RULE, 0);
    let y = entries(words, items, x)?;
    let z = expect(words, y, kinds::CLOSE)?;
    let first = expect(words, z, kinds::BRACE)?;
    body(words, items, first)
}

// The statements of a rule whose entries are on the tape, and `}`.
fn body(words: &Table, items: &mut Items, at: usize) -> Result<usize, Misfit>
    requires { Room words.now at items.old.n }
    ensures { IsBody words.now at items.old.n items.old.tape (came result items.new.n) items.new.tape }
{
    let x = statements(words, items, at)?;
    let y = expect(words, x, kinds::UNBRACE)?;
    items.emit(RULED, 0);
    Ok(y)
}

fn rules(words: &Table, items: &mut Items, at: usize) -> Result<usize, Misfit>
    requires { Room words.now at items.old.n }
    ensures { IsRules words.now at items.old.n items.old.tape (came result items.new.n) items.new.tape }
{
    let mut x = at;
    while kind(words, x) == kinds::NAME {
        x = rule(words, items, x)?;
    }
    Ok(x)
}

// A group: `or` and its rules in parentheses.
fn group(words: &Table, items: &mut Items, at: usize) -> Result<usize, Misfit>
    requires { Starts words.now at items.old.n or_kind }
    ensures { IsGroup words.now at items.old.n items.old.tape (came result items.new.n) items.new.tape }
{
    let x = expect(words, at + 1, kinds::OPEN)?;
    expect(words, x, kinds::NAME)?;
    items.put(words, at, OR, 0);
    let y = rules(words, items, x)?;
    let z = expect(words, y, kinds::CLOSE)?;
    items.emit(GROUPED, 0);
    Ok(z)
}

fn groups(words: &Table, items: &mut Items, at: usize) -> Result<usize, Misfit>
    requires { Room words.now at items.old.n }
    ensures { IsGroups words.now at items.old.n items.old.tape (came result items.new.n) items.new.tape }
{
    let mut x = at;
    while kind(words, x) == kinds::OR {
        x = group(words, items, x)?;
    }
    Ok(x)
}

// One group, or an `and` of groups.
pub fn constraint(words: &Table, items: &mut Items, at: usize) -> Result<usize, Misfit>
    requires { Room words.now at items.old.n }
    ensures { IsConstraint words.now at items.old.n items.old.tape (came result items.new.n) items.new.tape }
{
    match kind(words, at) {
        kinds::AND => conjunction(words, items, at),
        kinds::OR => group(words, items, at),
        _ => Err(Misfit { at }),
    }
}

// `and` and its groups in parentheses.
fn conjunction(words: &Table, items: &mut Items, at: usize) -> Result<usize, Misfit>
    requires { Starts words.now at items.old.n and_kind }
    ensures { IsConstraint words.now at items.old.n items.old.tape (came result items.new.n) items.new.tape }
{
    let x = expect(words, at + 1, kinds::OPEN)?;
    expect(words, x, kinds::OR)?;
    let y = groups(words, items, x)?;
    expect(words, y, kinds::CLOSE)
}
