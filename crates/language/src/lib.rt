// The kinds of things that document 01 speaks of: texts, operators, exact values, and what has a limit.
// What comes in: nothing; this crate is the ground. What goes out: these types, each limit once,
// and in specs/ what an actor text with its bindings means.
#![tactic(auto)]

ghost use Rattle.std.specs.Prelude.{◌≡◌, ◌≤◌, [], ◌∷◌, slice_get, MatchResult, Some};
ghost use Rattle.language.specs.Limits.{limits};
ghost use Rattle.language.specs.declared.Unary.TheVariants.{Invert, Plus, Not, All, NotAll, Any, NotAny, Odd, NotOdd};
ghost use Rattle.language.specs.declared.Binary.TheVariants.{Multiply, Divide, Remainder, Add, Subtract, Left, Right, Less, AtMost, Greater, AtLeast, Equal, Unequal, And, NotAnd, Xor, NotXor, Or, NotOr, Both, Either};

// The two texts that a place may stand in.
#[derive(Clone, Copy)]
pub enum Text {
    Actor,
    Bindings,
}

// Why texts are refused: the number of document 01's row, the text that it is about, and the place in it.
#[derive(Clone, Copy)]
pub struct Refusal {
    pub row: u32,
    pub text: Text,
    pub place: u32,
}

// The operators that stand before their operand.
#[derive(Clone, Copy)]
pub enum Unary {
    Invert,
    Plus,
    Not,
    All,
    NotAll,
    Any,
    NotAny,
    Odd,
    NotOdd,
}

// The operators that stand between two operands, the tightest first.
#[derive(Clone, Copy)]
pub enum Binary {
    Multiply,
    Divide,
    Remainder,
    Add,
    Subtract,
    Left,
    Right,
    Less,
    AtMost,
    Greater,
    AtLeast,
    Equal,
    Unequal,
    And,
    NotAnd,
    Xor,
    NotXor,
    Or,
    NotOr,
    Both,
    Either,
}

// A number that no operator has: they are numbered as they stand above.
#[derive(Clone, Copy)]
pub struct NoOperator(pub u32);

impl TryFrom<u32> for Unary {
    type Error = NoOperator;

    ghost try_from_gives = { λ n r. MatchResult r (λ u. slice_get (Invert ∷ Plus ∷ Not ∷ All ∷ NotAll ∷ Any ∷ NotAny ∷ Odd ∷ NotOdd ∷ []) n ≡ Some u) (λ e. (e.0 ≡ n) × (9 ≤ n)) };

    fn try_from(n: u32) -> Result<Self, NoOperator> {
        match n {
            0 => Ok(Unary::Invert),
            1 => Ok(Unary::Plus),
            2 => Ok(Unary::Not),
            3 => Ok(Unary::All),
            4 => Ok(Unary::NotAll),
            5 => Ok(Unary::Any),
            6 => Ok(Unary::NotAny),
            7 => Ok(Unary::Odd),
            8 => Ok(Unary::NotOdd),
            _ => Err(NoOperator(n)),
        }
    }
}

impl TryFrom<u32> for Binary {
    type Error = NoOperator;

    ghost try_from_gives = { λ n r. MatchResult r (λ o. slice_get (Multiply ∷ Divide ∷ Remainder ∷ Add ∷ Subtract ∷ Left ∷ Right ∷ Less ∷ AtMost ∷ Greater ∷ AtLeast ∷ Equal ∷ Unequal ∷ And ∷ NotAnd ∷ Xor ∷ NotXor ∷ Or ∷ NotOr ∷ Both ∷ Either ∷ []) n ≡ Some o) (λ e. (e.0 ≡ n) × (21 ≤ n)) };

    fn try_from(n: u32) -> Result<Self, NoOperator> {
        match n {
            0 => Ok(Binary::Multiply),
            1 => Ok(Binary::Divide),
            2 => Ok(Binary::Remainder),
            3 => Ok(Binary::Add),
            4 => Ok(Binary::Subtract),
            5 => Ok(Binary::Left),
            6 => Ok(Binary::Right),
            7 => Ok(Binary::Less),
            8 => Ok(Binary::AtMost),
            9 => Ok(Binary::Greater),
            10 => Ok(Binary::AtLeast),
            11 => Ok(Binary::Equal),
            12 => Ok(Binary::Unequal),
            13 => Ok(Binary::And),
            14 => Ok(Binary::NotAnd),
            15 => Ok(Binary::Xor),
            16 => Ok(Binary::NotXor),
            17 => Ok(Binary::Or),
            18 => Ok(Binary::NotOr),
            19 => Ok(Binary::Both),
            20 => Ok(Binary::Either),
            _ => Err(NoOperator(n)),
        }
    }
}

// The exact value of a type: `up` less `down`, and the logarithm of `a` less that of `b`.
#[derive(Clone, Copy)]
pub struct Exact {
    pub up: u64,
    pub down: u64,
    pub a: u64,
    pub b: u64,
}

// A plan, by its form number, and how much an actor's plan may hold.
#[derive(Clone, Copy)]
pub struct Plan {
    pub form: u32,
}

impl Plan {
    pub const PORTS: u32 = 16;

    pub const MEMORIES: u32 = 8;

    pub const SIZE: u32 = 256;

    pub const CELLS: u32 = 256;

    pub const GROUPS: u32 = 8;

    pub const RULES: u32 = 32;

    pub const VALS: u32 = 16;

    pub const WIDTH: u32 = 32;
}

// A type, by the number of its words.
#[derive(Clone, Copy)]
pub struct Type {
    pub words: u32,
}

impl Type {
    pub const WORDS: u32 = 64;

    pub const NUMBER: u32 = 65535;
}

// An expression, by the number of its words.
#[derive(Clone, Copy)]
pub struct Expression {
    pub words: u32,
}

impl Expression {
    pub const WORDS: u32 = 256;

    pub const COPIES: u32 = 64;

    pub const WIDTH: u32 = 64;
}

// The bindings text, by the number of its bytes.
#[derive(Clone, Copy)]
pub struct Bindings {
    pub bytes: u32,
}

impl Bindings {
    pub const BYTES: u32 = 2048;

    pub const LINES: u32 = 16;
}

// The actor text, by the number of its bytes.
#[derive(Clone, Copy)]
pub struct Actor {
    pub bytes: u32,
}

impl Actor {
    pub const BYTES: u32 = 8192;

    pub const NAME: u32 = 31;

    pub const NUMBER: u32 = 4294967295;
}

// Every limit under the name by which specs/ cites it.
#[derive(Clone, Copy)]
pub struct Limits {
    pub actor: u32,
    pub name: u32,
    pub number: u32,
    pub bindings: u32,
    pub lines: u32,
    pub ports: u32,
    pub memories: u32,
    pub size: u32,
    pub cells: u32,
    pub groups: u32,
    pub rules: u32,
    pub vals: u32,
    pub width: u32,
    pub typeNumber: u32,
    pub typeWords: u32,
    pub expressionWords: u32,
    pub copies: u32,
    pub expressionWidth: u32,
}

// The limits of specs/ are those of the code.
pub fn all() -> Limits
    ensures { result ≡ limits }
{
    Limits {
        actor: Actor::BYTES,
        name: Actor::NAME,
        number: Actor::NUMBER,
        bindings: Bindings::BYTES,
        lines: Bindings::LINES,
        ports: Plan::PORTS,
        memories: Plan::MEMORIES,
        size: Plan::SIZE,
        cells: Plan::CELLS,
        groups: Plan::GROUPS,
        rules: Plan::RULES,
        vals: Plan::VALS,
        width: Plan::WIDTH,
        typeNumber: Type::NUMBER,
        typeWords: Type::WORDS,
        expressionWords: Expression::WORDS,
        copies: Expression::COPIES,
        expressionWidth: Expression::WIDTH,
    }
}
