// The head of an actor, all that stands before its groups: its name, signature, ports and memories.
// What comes in: the words, the items on the tape, the index of the first word. What goes out: the items of what was read,
// after those that are on the tape, and the index of the next word, or the first word that does not fit.
#![tactic(auto)]

ghost use Rattle.std.specs.Prelude.{true};
ghost use Rattle.readers.specs.Meets.{Room, Within, came};
ghost use Rattle.head_reader.specs.Heads.{IsHead, IsMemories, IsMemory, IsPort, IsPorts, IsSignature};
ghost use Rattle.head_reader.specs.Declares.{IsDeclarations, IsMemoryName, IsPortName, IsSigned, IsSize};

use readers::{Items, Misfit, Table, expect, kind, value};
use signs::kinds;
use tape::{ACTOR, DECLARED, MEMORY, SIGNED, SIZE};
use type_reader::declared;

// The value of a port's item: so much for an input, and 1 more where a type is on the tape, as with a memory's.
const INPUT: u32 = 2;

// The actor's name, its signature, ports and memories: no name needs its memory mark here.
pub fn head(words: &Table, items: &mut Items, at: usize) -> Result<usize, Misfit>
    requires { Room words.now at items.old.n }
    ensures { IsHead words.now at items.old.n items.old.tape (came result items.new.n) items.new.tape }
{
    let x = expect(words, at, kinds::NAME)?;
    let y = expect(words, x, kinds::OPEN)?;
    items.put(words, at, ACTOR, 0);
    let z = signature(words, items, y)?;
    let end = expect(words, z, kinds::CLOSE)?;
    let first = expect(words, end, kinds::BRACE)?;
    declarations(words, items, first)
}

// The names of the signature, one or more, with commas between.
fn signature(words: &Table, items: &mut Items, at: usize) -> Result<usize, Misfit>
    requires { Room words.now at items.old.n }
    ensures { IsSignature words.now at items.old.n items.old.tape (came result items.new.n) items.new.tape }
{
    let mut x = at;
    loop {
        x = signed(words, items, x)?;
        if kind(words, x) != kinds::COMMA {
            return Ok(x);
        }
        x += 1;
    }
}

// A name of the signature.
fn signed(words: &Table, items: &mut Items, at: usize) -> Result<usize, Misfit>
    requires { Room words.now at items.old.n }
    ensures { IsSigned words.now at items.old.n items.old.tape (came result items.new.n) items.new.tape }
{
    let x = expect(words, at, kinds::NAME)?;
    items.put(words, at, SIGNED, 0);
    Ok(x)
}

// The ports, one or more, and the memories, after a name and a signature that are on the tape.
fn declarations(words: &Table, items: &mut Items, at: usize) -> Result<usize, Misfit>
    requires { Room words.now at items.old.n }
    ensures { IsDeclarations words.now at items.old.n items.old.tape (came result items.new.n) items.new.tape }
{
    let k = kind(words, at);
    if k != kinds::INPUT && k != kinds::OUTPUT {
        return Err(Misfit { at });
    }
    let x = ports(words, items, at)?;
    memories(words, items, x)
}

// Ports, none or more.
fn ports(words: &Table, items: &mut Items, at: usize) -> Result<usize, Misfit>
    requires { Room words.now at items.old.n }
    ensures { IsPorts words.now at items.old.n items.old.tape (came result items.new.n) items.new.tape }
{
    let mut x = at;
    loop {
        let k = kind(words, x);
        if k != kinds::INPUT && k != kinds::OUTPUT {
            return Ok(x);
        }
        x = port(words, items, x, k == kinds::INPUT)?;
    }
}

// A port, whose `input` or `output` stands at `at`: a type or none, a name.
fn port(words: &Table, items: &mut Items, at: usize, input: bool) -> Result<usize, Misfit>
    requires room { Room words.now at items.old.n }
    requires within { Within words.now at }
    ensures { IsPort words.now at items.old.n items.old.tape (came result items.new.n) items.new.tape input }
{
    let (x, typed) = declared(words, items, at + 1)?;
    let mark = INPUT * u32::from(input) + u32::from(typed);
    port_name(words, items, x, mark)
}

// A port's name, after a type that is on the tape or none.
fn port_name(words: &Table, items: &mut Items, at: usize, mark: u32) -> Result<usize, Misfit>
    requires { Room words.now at items.old.n }
    ensures { IsPortName words.now at items.old.n items.old.tape (came result items.new.n) items.new.tape mark }
{
    let x = expect(words, at, kinds::NAME)?;
    let y = expect(words, x, kinds::SEMICOLON)?;
    items.put(words, at, DECLARED, mark);
    Ok(y)
}

// Memories, none or more.
fn memories(words: &Table, items: &mut Items, at: usize) -> Result<usize, Misfit>
    requires { Room words.now at items.old.n }
    ensures { IsMemories words.now at items.old.n items.old.tape (came result items.new.n) items.new.tape }
{
    let mut x = at;
    loop {
        let k = kind(words, x);
        if k != kinds::REG && k != kinds::FF {
            return Ok(x);
        }
        x = storage(words, items, x)?;
    }
}

// A memory, whose `reg` or `ff` stands at `at`: a type or none, a name, a size or none.
fn storage(words: &Table, items: &mut Items, at: usize) -> Result<usize, Misfit>
    requires room { Room words.now at items.old.n }
    requires within { Within words.now at }
    ensures { IsMemory words.now at items.old.n items.old.tape (came result items.new.n) items.new.tape true }
{
    let (x, typed) = declared(words, items, at + 1)?;
    memory_name(words, items, x, u32::from(typed))
}

// A memory's name and size, after a type that is on the tape or none.
fn memory_name(words: &Table, items: &mut Items, at: usize, typed: u32) -> Result<usize, Misfit>
    requires { Room words.now at items.old.n }
    ensures { IsMemoryName words.now at items.old.n items.old.tape (came result items.new.n) items.new.tape typed }
{
    let x = expect(words, at, kinds::NAME)?;
    let y = size(words, items, x)?;
    let z = expect(words, y, kinds::SEMICOLON)?;
    items.put(words, at, MEMORY, typed);
    Ok(z)
}

// The size of a memory, an item where there is one.
fn size(words: &Table, items: &mut Items, at: usize) -> Result<usize, Misfit>
    requires { Room words.now at items.old.n }
    ensures { IsSize words.now at items.old.n items.old.tape (came result items.new.n) items.new.tape }
{
    if kind(words, at) != kinds::NUMBER {
        return Ok(at);
    }
    items.put(words, at, SIZE, value(words, at));
    Ok(at + 1)
}
