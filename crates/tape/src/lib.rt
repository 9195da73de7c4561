// The tape: what an actor's text says, as items of three numbers, an operation, a place and a value (specs/Tape.antt).
// What comes in: a text and the tape of its actor. What goes out: what every row asks of them: an item's class, the name at
// a place, whether a name is said by some item; the operations, each once.
#![tactic(auto)]

mod numbers;

ghost use Rattle.std.specs.Prelude.{◌≡◌, ◌*◌, ◌≤◌, length};
ghost use Rattle.language.specs.Text.{same, among};
ghost use Rattle.placed.specs.Placed.{name_from};
ghost use Rattle.tape.specs.Nodes.{node_of};
ghost use Rattle.tape.specs.Walk.{hit, between};

pub use numbers::{
    ACTOR, ARM, ASSIGN, BESIDE, BINARY, BIT, BITS, CEIL, CELL, CHOICE, COPIES, DECLARED, DEFAULT,
    EITHER, END, ENTRY, ENVIRONMENT, FLOOR, GIVEN, GROUPED, INSIDE, JOINED, LET, LOG, MEMORY,
    MINUS, MOST, NUMBER, OR, PLAIN, PLUS, PORT, PRESENT, RANGE, READ, RULE, RULED, SELECT,
    SELECTED, SIGNED, SIZE, TYPED, UNARY, VAL, VALUE, WITHIN, WRITE, all,
};

// The most items of a tape: each stands for a word of its own, and a word has a byte at least.
pub const ITEMS: usize = language::Actor::BYTES as usize;

// The most numbers of a tape, three for each item.
pub const LENGTH: usize = 3 * ITEMS;

// Every operation under the name by which specs/ cites it.
#[derive(Clone, Copy)]
pub struct Operations {
    pub number: u32,
    pub environment: u32,
    pub port: u32,
    pub plus: u32,
    pub minus: u32,
    pub log: u32,
    pub ceil: u32,
    pub floor: u32,
    pub most: u32,
    pub entry: u32,
    pub within: u32,
    pub bits: u32,
    pub typed: u32,
    pub given: u32,
    pub value: u32,
    pub plain: u32,
    pub copies: u32,
    pub read: u32,
    pub cell: u32,
    pub bit: u32,
    pub range: u32,
    pub inside: u32,
    pub joined: u32,
    pub beside: u32,
    pub unary: u32,
    pub binary: u32,
    pub choice: u32,
    pub either: u32,
    pub select: u32,
    pub selected: u32,
    pub arm: u32,
    pub default: u32,
    pub assign: u32,
    pub write: u32,
    pub lets: u32,
    pub end: u32,
    pub val: u32,
    pub present: u32,
    pub rule: u32,
    pub ruled: u32,
    pub or: u32,
    pub grouped: u32,
    pub declared: u32,
    pub memory: u32,
    pub size: u32,
    pub signed: u32,
    pub actor: u32,
}

// What an item is in the type that it stands in.
#[derive(Clone, Copy)]
pub enum Node {
    Number,
    Name,
    Port,
    // What joins two types: `+` or the `,` of a `max`; `-`.
    Join,
    Minus,
    // What holds one type.
    Log,
    // `ceil` or `floor`.
    Whole,
    Most,
    Within,
    // No item of a type.
    Other,
}

// What an item names.
#[derive(Clone, Copy)]
pub enum Class {
    Signed,
    // A port; an input; an output; a port or a memory.
    Declared,
    Input,
    Output,
    Taken,
    // An entry of a rule's list; a `val`.
    Present,
    Val,
    // An entry with `.p.1`; an output at its assignment; an environment name.
    Required,
    Assigned,
    Environment,
}

pub fn wide(x: u32) -> usize
    ensures { result ≡ x }
{
    x as usize
}

// What an item is in a type, by its operation.
#[tactic(auto, unfolding(crate::specs::Nodes::node_of))]
pub fn node_of(op: u32) -> Node
    ensures { result ≡ node_of op }
{
    match op {
        NUMBER => Node::Number,
        ENVIRONMENT => Node::Name,
        PORT => Node::Port,
        PLUS | ENTRY => Node::Join,
        MINUS => Node::Minus,
        LOG => Node::Log,
        CEIL | FLOOR => Node::Whole,
        MOST => Node::Most,
        WITHIN => Node::Within,
        _ => Node::Other,
    }
}

// The name that stands at a place.
pub fn name(text: &[u8], at: usize) -> &[u8]
    ensures { result.now ≡ name_from text.now at }
{
    let n = spans::run(text, at);
    spans::part(text, at, n)
}

// Whether the same name stands at two places.
pub fn same_name(text: &[u8], p: usize, q: usize) -> bool
    ensures { result ≡ same (name_from text.now p) (name_from text.now q) }
{
    spelling::same_bytes(name(text, p), name(text, q))
}

// Whether an item is of a class. One table here and no closures: the contracts name the class (`names_on` of specs/).
#[tactic(auto, unfolding(crate::specs::Walk::hit))]
#[inline(always)]
fn is(class: Class, op: u32, value: u32) -> bool
    ensures { result ≡ hit class op value }
{
    match class {
        Class::Signed => op == SIGNED,
        Class::Declared => op == DECLARED,
        Class::Input => op == DECLARED && 2 <= value,
        Class::Output => op == DECLARED && value < 2,
        Class::Taken => op == DECLARED || op == MEMORY,
        Class::Present => op == PRESENT,
        Class::Val => op == VAL,
        Class::Required => op == PRESENT && value == 1,
        Class::Assigned => op == ASSIGN,
        Class::Environment => op == ENVIRONMENT || op == VALUE,
    }
}

// What `said` says where the class is known: in line, so that the loop tests that class alone.
#[inline(always)]
fn said_as(text: &[u8], tape: &[u32], from: usize, to: usize, class: Class, called: &[u8]) -> bool
    requires { (from ≤ to) × (3 * to ≤ length tape.now) }
    ensures { result ≡ among (between text.now tape.now class from to) called.now }
{
    for i in (from..to).rev() {
        if is(class, tape[3 * i], tape[3 * i + 2])
            && spelling::same_bytes(name(text, tape[3 * i + 1] as usize), called)
        {
            return true;
        }
    }
    false
}

// Whether an item of a class, from one item on and before another, has a name.
// The class is told apart here, once, and not at each item: each arm has a loop of its own.
pub fn said(text: &[u8], tape: &[u32], from: usize, to: usize, class: Class, called: &[u8]) -> bool
    requires { (from ≤ to) × (3 * to ≤ length tape.now) }
    ensures { result ≡ among (between text.now tape.now class from to) called.now }
{
    match class {
        Class::Signed => said_as(text, tape, from, to, Class::Signed, called),
        Class::Declared => said_as(text, tape, from, to, Class::Declared, called),
        Class::Input => said_as(text, tape, from, to, Class::Input, called),
        Class::Output => said_as(text, tape, from, to, Class::Output, called),
        Class::Taken => said_as(text, tape, from, to, Class::Taken, called),
        Class::Present => said_as(text, tape, from, to, Class::Present, called),
        Class::Val => said_as(text, tape, from, to, Class::Val, called),
        Class::Required => said_as(text, tape, from, to, Class::Required, called),
        Class::Assigned => said_as(text, tape, from, to, Class::Assigned, called),
        Class::Environment => said_as(text, tape, from, to, Class::Environment, called),
    }
}
