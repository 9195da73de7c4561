// The kinds of words, each once: specs/Kinds.antt has their order.
// Numbers and no enum: `words::words` promises a table of numbers (`numbers_of`), and its readers compare what stands there.
ghost use Rattle.std.specs.Prelude.{◌≡◌};
ghost use Rattle.signs.specs.Kinds.{kinds};

// A plain number.
pub const NUMBER: u32 = 1;

// A name.
pub const NAME: u32 = 2;

// The digits of a sized constant, from their `'` on.
pub const DIGITS: u32 = 3;

// `input`
pub const INPUT: u32 = 4;

// `output`
pub const OUTPUT: u32 = 5;

// `reg`
pub const REG: u32 = 6;

// `ff`
pub const FF: u32 = 7;

// `and`
pub const AND: u32 = 8;

// `or`
pub const OR: u32 = 9;

// `let`
pub const LET: u32 = 10;

// `val`
pub const VAL: u32 = 11;

// `in`
pub const IN: u32 = 12;

// `end`
pub const END: u32 = 13;

// `case`
pub const CASE: u32 = 14;

// `if`
pub const IF: u32 = 15;

// `then`
pub const THEN: u32 = 16;

// `else`
pub const ELSE: u32 = 17;

// `max`
pub const MAX: u32 = 18;

// `log`
pub const LOG: u32 = 19;

// `ceil`
pub const CEIL: u32 = 20;

// `floor`
pub const FLOOR: u32 = 21;

// `_`
pub const DEFAULT: u32 = 22;

// `'d`
pub const VALUE: u32 = 23;

// `=>`
pub const ARROW: u32 = 24;

// `==`
pub const EQUAL: u32 = 25;

// `!=`
pub const UNEQUAL: u32 = 26;

// `<<`
pub const LEFT: u32 = 27;

// `<=`
pub const AT_MOST: u32 = 28;

// `>>`
pub const RIGHT: u32 = 29;

// `>=`
pub const AT_LEAST: u32 = 30;

// `&&`
pub const BOTH: u32 = 31;

// `||`
pub const EITHER: u32 = 32;

// `~&`
pub const NOT_AND: u32 = 33;

// `~|`
pub const NOT_OR: u32 = 34;

// `~^`
pub const NOT_XOR: u32 = 35;

// `(`
pub const OPEN: u32 = 36;

// `)`
pub const CLOSE: u32 = 37;

// `{`
pub const BRACE: u32 = 38;

// `}`
pub const UNBRACE: u32 = 39;

// `[`
pub const BRACKET: u32 = 40;

// `]`
pub const UNBRACKET: u32 = 41;

// `,`
pub const COMMA: u32 = 42;

// `;`
pub const SEMICOLON: u32 = 43;

// `:`
pub const COLON: u32 = 44;

// `?`
pub const ASK: u32 = 45;

// `.`
pub const DOT: u32 = 46;

// `=`
pub const EQUALS: u32 = 47;

// `<`
pub const LESS: u32 = 48;

// `>`
pub const GREATER: u32 = 49;

// `!`
pub const NOT: u32 = 50;

// `~`
pub const INVERT: u32 = 51;

// `&`
pub const AMPERSAND: u32 = 52;

// `|`
pub const BAR: u32 = 53;

// `^`
pub const CARET: u32 = 54;

// `+`
pub const PLUS: u32 = 55;

// `-`
pub const MINUS: u32 = 56;

// `*`
pub const STAR: u32 = 57;

// `/`
pub const SLASH: u32 = 58;

// `%`
pub const PERCENT: u32 = 59;

// `foreach`
pub const FOREACH: u32 = 60;

// `instruction`
pub const INSTRUCTION: u32 = 61;

// `@`
pub const AT_SIGN: u32 = 62;

// `$`
pub const DOLLAR: u32 = 63;

// `#`
pub const HASH: u32 = 64;

// The kinds of specs/ are those of the code.
pub fn all() -> [u32; 64]
    ensures { result ≡ kinds }
{
    [
        NUMBER,
        NAME,
        DIGITS,
        INPUT,
        OUTPUT,
        REG,
        FF,
        AND,
        OR,
        LET,
        VAL,
        IN,
        END,
        CASE,
        IF,
        THEN,
        ELSE,
        MAX,
        LOG,
        CEIL,
        FLOOR,
        DEFAULT,
        VALUE,
        ARROW,
        EQUAL,
        UNEQUAL,
        LEFT,
        AT_MOST,
        RIGHT,
        AT_LEAST,
        BOTH,
        EITHER,
        NOT_AND,
        NOT_OR,
        NOT_XOR,
        OPEN,
        CLOSE,
        BRACE,
        UNBRACE,
        BRACKET,
        UNBRACKET,
        COMMA,
        SEMICOLON,
        COLON,
        ASK,
        DOT,
        EQUALS,
        LESS,
        GREATER,
        NOT,
        INVERT,
        AMPERSAND,
        BAR,
        CARET,
        PLUS,
        MINUS,
        STAR,
        SLASH,
        PERCENT,
        FOREACH,
        INSTRUCTION,
        AT_SIGN,
        DOLLAR,
        HASH,
    ]
}
