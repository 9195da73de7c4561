// The list of a rule: ports, each with whether it is to be present.
ghost use Rattle.std.specs.Prelude.{◌+◌};
ghost use Rattle.readers.specs.Meets.{Inside, Room, came};
ghost use Rattle.rule_reader.specs.Rules.{IsEntries, IsEntry, IsFigure};

use readers::{Items, Misfit, Table, expect, kind, long, the_p, value};
use signs::kinds;
use tape::PRESENT;

// One entry or more, with commas between.
pub fn entries(words: &Table, items: &mut Items, at: usize) -> Result<usize, Misfit>
    requires { Room words.now at items.old.n }
    ensures { IsEntries words.now at items.old.n items.old.tape (came result items.new.n) items.new.tape }
{
    let mut x = at;
    loop {
        x = entry(words, items, x)?;
        if kind(words, x) != kinds::COMMA {
            return Ok(x);
        }
        x += 1;
    }
}

// A port of a rule's list: `name.p.1` or `name.p.0`.
fn entry(words: &Table, items: &mut Items, at: usize) -> Result<usize, Misfit>
    requires { Room words.now at items.old.n }
    ensures { IsEntry words.now at items.old.n items.old.tape (came result items.new.n) items.new.tape }
{
    let x = expect(words, at, kinds::NAME)?;
    let y = expect(words, x, kinds::DOT)?;
    if !the_p(words, y) {
        return Err(Misfit { at: y });
    }
    expect(words, y + 1, kinds::DOT)?;
    figure(words, items, at)
}

// The figure 1 or 0 of the entry whose name stands at `at`.
fn figure(words: &Table, items: &mut Items, at: usize) -> Result<usize, Misfit>
    requires room { Room words.now at items.old.n }
    requires inside { Inside words.now (at + 4) }
    ensures { IsFigure words.now at items.old.n items.old.tape (came result items.new.n) items.new.tape }
{
    let x = expect(words, at + 4, kinds::NUMBER)?;
    let v = value(words, at + 4);
    if long(words, at + 4) != 1 || v > 1 {
        return Err(Misfit { at: at + 4 });
    }
    items.put(words, at, PRESENT, v);
    Ok(x)
}
