// The operations of the tape's items, each once: docs/TAPE.md says what each one's place and value are.
ghost use Rattle.std.specs.Prelude.{◌≡◌};
ghost use Rattle.tape.specs.Tape.{operations};

use crate::Operations;

// Numbers and no enum: syntax::read promises a tape of numbers, with these operations (specs/Tape.antt, docs/TAPE.md).

// Types.
pub const NUMBER: u32 = 1;

pub const ENVIRONMENT: u32 = 2;

pub const PORT: u32 = 3;

pub const PLUS: u32 = 4;

pub const MINUS: u32 = 5;

pub const LOG: u32 = 6;

pub const CEIL: u32 = 7;

pub const FLOOR: u32 = 8;

pub const MOST: u32 = 9;

pub const ENTRY: u32 = 10;

pub const WITHIN: u32 = 11;

// Expressions.
pub const BITS: u32 = 12;

pub const TYPED: u32 = 13;

pub const GIVEN: u32 = 14;

pub const VALUE: u32 = 15;

pub const PLAIN: u32 = 16;

pub const COPIES: u32 = 17;

pub const READ: u32 = 18;

pub const CELL: u32 = 19;

pub const BIT: u32 = 20;

pub const RANGE: u32 = 21;

pub const INSIDE: u32 = 22;

pub const JOINED: u32 = 23;

pub const BESIDE: u32 = 24;

pub const UNARY: u32 = 25;

pub const BINARY: u32 = 26;

pub const CHOICE: u32 = 27;

pub const EITHER: u32 = 28;

pub const SELECT: u32 = 29;

pub const SELECTED: u32 = 30;

pub const ARM: u32 = 31;

pub const DEFAULT: u32 = 32;

// Statements, rules, groups, declarations.
pub const ASSIGN: u32 = 33;

pub const WRITE: u32 = 34;

pub const LET: u32 = 35;

pub const END: u32 = 36;

pub const VAL: u32 = 37;

pub const PRESENT: u32 = 38;

pub const RULE: u32 = 39;

pub const RULED: u32 = 40;

pub const OR: u32 = 41;

pub const GROUPED: u32 = 42;

pub const DECLARED: u32 = 43;

pub const MEMORY: u32 = 44;

pub const SIZE: u32 = 45;

pub const SIGNED: u32 = 46;

pub const ACTOR: u32 = 47;

// The operations of specs/ are those of the code.
pub fn all() -> Operations
    ensures { result ≡ operations }
{
    Operations {
        number: NUMBER,
        environment: ENVIRONMENT,
        port: PORT,
        plus: PLUS,
        minus: MINUS,
        log: LOG,
        ceil: CEIL,
        floor: FLOOR,
        most: MOST,
        entry: ENTRY,
        within: WITHIN,
        bits: BITS,
        typed: TYPED,
        given: GIVEN,
        value: VALUE,
        plain: PLAIN,
        copies: COPIES,
        read: READ,
        cell: CELL,
        bit: BIT,
        range: RANGE,
        inside: INSIDE,
        joined: JOINED,
        beside: BESIDE,
        unary: UNARY,
        binary: BINARY,
        choice: CHOICE,
        either: EITHER,
        select: SELECT,
        selected: SELECTED,
        arm: ARM,
        default: DEFAULT,
        assign: ASSIGN,
        write: WRITE,
        lets: LET,
        end: END,
        val: VAL,
        present: PRESENT,
        rule: RULE,
        ruled: RULED,
        or: OR,
        grouped: GROUPED,
        declared: DECLARED,
        memory: MEMORY,
        size: SIZE,
        signed: SIGNED,
        actor: ACTOR,
    }
}
