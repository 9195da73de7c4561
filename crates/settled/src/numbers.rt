// The operations of settled items, each once: docs/TAPE.md says what the operands of each are.
// Numbers and no enum: `settled_of` fixes each, and they stand in tables of numbers.
ghost use Rattle.std.specs.Prelude.{◌≡◌};
ghost use Rattle.settled.specs.Form.{operations};

use crate::Operations;

pub const BITS: u32 = 12;

pub const BIG: u32 = 13;

pub const AMOUNT: u32 = 14;

pub const PLAIN: u32 = 16;

pub const COPIES: u32 = 17;

pub const READ: u32 = 18;

pub const CELL: u32 = 19;

pub const HELD: u32 = 20;

pub const RANGE: u32 = 21;

pub const START: u32 = 22;

pub const JOINED: u32 = 23;

pub const BESIDE: u32 = 24;

pub const UNARY: u32 = 25;

pub const BINARY: u32 = 26;

pub const CHOICE: u32 = 27;

pub const EITHER: u32 = 28;

pub const SELECT: u32 = 29;

pub const SELECTED: u32 = 30;

pub const ARM: u32 = 31;

pub const ASSIGN: u32 = 33;

pub const WRITE: u32 = 34;

pub const TYPED: u32 = 36;

pub const VAL: u32 = 37;

pub const PRESENT: u32 = 38;

pub const RULE: u32 = 39;

pub const RULED: u32 = 40;

pub const OR: u32 = 41;

pub const MEMORY: u32 = 44;

pub const SIGNED: u32 = 46;

// A position that is outside of every expression.
pub const OUTSIDE: u32 = 4294967295;

// The operations of specs/ are those of the code.
pub fn all() -> Operations
    ensures { result ≡ operations }
{
    Operations {
        bits: BITS,
        big: BIG,
        amount: AMOUNT,
        plain: PLAIN,
        copies: COPIES,
        read: READ,
        cell: CELL,
        held: HELD,
        range: RANGE,
        start: START,
        joined: JOINED,
        beside: BESIDE,
        unary: UNARY,
        binary: BINARY,
        choice: CHOICE,
        either: EITHER,
        select: SELECT,
        selected: SELECTED,
        arm: ARM,
        assign: ASSIGN,
        write: WRITE,
        typed: TYPED,
        val: VAL,
        present: PRESENT,
        rule: RULE,
        ruled: RULED,
        or: OR,
        memory: MEMORY,
        signed: SIGNED,
        outside: OUTSIDE,
    }
}
