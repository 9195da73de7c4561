// The value of a type with exact logs, at widths of the unknowns.
// What comes in: a type in code, a number a node, each node after its operands; the unknowns stand by index.
// What goes out: the value, a width, or a bit position, None outside; 0 where no type's code stands.
#![tactic(auto)]

ghost use Rattle.std.specs.Prelude.{◌≡◌, ◌≤◌, length};
ghost use Rattle.language.specs.Limits.{limits};
ghost use Rattle.language.specs.Types.{width_of, position_of};
ghost use Rattle.exact.specs.Room.{Space, Room, positioned};
ghost use Rattle.type_value.specs.Terms.{value_at};
ghost use Rattle.type_value.specs.Walk.{part, EachType, unary_of, binary_of, unary_kind, binary_kind, Means, alone, value_of, Pushed, Popped, TurnedLast, TurnedLastTwo, Turned};

use exact::{ceil, floor, greater, log, minus, number, plus, position_of, width_of};
use exact_room::{has_room, has_space};
use language::Exact;

// As many values wait at once as a type has words at most.
const WORDS: usize = language::Type::WORDS as usize;

// What stands where no value waits: zeros, which are filled in at once.
const VOID: Exact = Exact {
    up: 0,
    down: 0,
    a: 0,
    b: 0,
};

#[derive(Clone, Copy)]
enum OnOne {
    Log,
    Floor,
    Ceil,
}

#[derive(Clone, Copy)]
enum OnTwo {
    Plus,
    Minus,
    Greater,
}

// A node of a type: a number, the unknown with an index, or an operation on the values before it.
#[derive(Clone, Copy)]
enum Node {
    Number(u32),
    Port(usize),
    One(OnOne),
    Two(OnTwo),
}

fn decoded(word: u32) -> Node
    ensures { Means result word }
{
    let argument = word / 8;
    match word % 8 {
        0 => Node::Number(argument),
        1 => Node::Port(argument as usize),
        2 => Node::One(OnOne::Log),
        3 => Node::One(OnOne::Floor),
        4 => Node::One(OnOne::Ceil),
        5 => Node::Two(OnTwo::Plus),
        6 => Node::Two(OnTwo::Minus),
        _ => Node::Two(OnTwo::Greater),
    }
}

#[tactic(auto, unfolding(crate::specs::Walk::unary_of))]
fn unary(op: OnOne, x: Exact) -> Exact
    requires { Space x }
    ensures { result ≡ unary_of (unary_kind op) x }
{
    match op {
        OnOne::Log => log(width_of(x)),
        OnOne::Floor => floor(x),
        OnOne::Ceil => ceil(x),
    }
}

#[tactic(auto, unfolding(crate::specs::Walk::binary_of))]
fn binary(op: OnTwo, x: Exact, y: Exact) -> Exact
    requires { Room x y }
    ensures { result ≡ binary_of (binary_kind op) x y }
{
    match op {
        OnTwo::Plus => plus(x, y),
        OnTwo::Minus => minus(x, y),
        OnTwo::Greater => greater(x, y),
    }
}

// The values that wait for their operation: the first n.
#[derive(Drop)]
struct Waiting {
    values: [Exact; WORDS],
    n: usize,
    ghost few: { n ≤ limits.typeWords },
}

impl Waiting {
    ghost use Rattle.type_value.specs.Held.{held};

    fn push(&mut self, x: Exact) -> Option<()>
        ensures { Pushed (held self.old) x (held self.new) result }
    {
        if self.n == WORDS {
            return None;
        }
        self.values[self.n] = x;
        self.n += 1;
        Some(())
    }

    fn pop(&mut self) -> Option<Exact>
        ensures { Popped (held self.old) (held self.new) result }
    {
        if self.n == 0 {
            return None;
        }
        self.n -= 1;
        Some(self.values[self.n])
    }

    // The last value gives way to another.
    fn on_last(&mut self, op: OnOne) -> Option<()>
        ensures { TurnedLast (unary_of (unary_kind op)) (held self.old) (held self.new) result }
    {
        let x = self.pop()?;
        if !has_space(x) {
            return None;
        }
        self.push(unary(op, x))
    }

    // The last two values give way to one.
    fn on_last_two(&mut self, op: OnTwo) -> Option<()>
        ensures { TurnedLastTwo (binary_of (binary_kind op)) (held self.old) (held self.new) result }
    {
        let y = self.pop()?;
        let x = self.pop()?;
        if !has_room(x, y) {
            return None;
        }
        self.push(binary(op, x, y))
    }

    // One node, where it finds what it needs and its value has a place.
    fn turn(&mut self, word: u32, ws: &[u32]) -> Option<()>
        ensures { Turned ws.now word (held self.old) (held self.new) result }
    {
        match decoded(word) {
            Node::Number(n) => self.push(number(u64::from(n))),
            Node::Port(i) => {
                if ws.len() <= i {
                    return None;
                }
                self.push(number(u64::from(ws[i])))
            }
            Node::One(op) => self.on_last(op),
            Node::Two(op) => self.on_last_two(op),
        }
    }

    // The value that waits alone, where floor takes it; else 0.
    #[tactic(auto, using(crate::proofs::Tested::alone_not_one, crate::proofs::Tested::alone_one, crate::proofs::Tested::alone_wide))]
    fn only(&self) -> Exact
        ensures { result ≡ alone (held self.now) }
    {
        if self.n == 1 && has_space(self.values[0]) {
            self.values[0]
        } else {
            number(0)
        }
    }
}

// The value of the type whose code stands from one index to another, at the widths ws; 0 where no type's code stands there.
fn value_at(code: &[u32], from: usize, end: usize, ws: &[u32]) -> Exact
    ensures each_type { EachType code.now from end ws.now (λ t. result ≡ value_at ws.now t) }
    ensures value { end ≤ length code.now → result ≡ value_of ws.now (part code.now from end) }
    ensures space { Space result }
{
    if code.len() < end {
        return number(0);
    }
    let mut waiting = Waiting {
        values: [VOID; WORDS],
        n: 0,
    };
    for i in from..end {
        match waiting.turn(code[i], ws) {
            Some(()) => {}
            None => return number(0),
        }
    }
    waiting.only()
}

pub fn width_at(code: &[u32], from: usize, end: usize, ws: &[u32]) -> u64
    ensures each_type { EachType code.now from end ws.now (λ t. result ≡ width_of (value_at ws.now t)) }
    ensures value { end ≤ length code.now → result ≡ width_of (value_of ws.now (part code.now from end)) }
{
    width_of(value_at(code, from, end, ws))
}

pub fn position_at(code: &[u32], from: usize, end: usize, ws: &[u32]) -> Option<u64>
    ensures each_type { EachType code.now from end ws.now (λ t. result ≡ positioned (position_of (value_at ws.now t))) }
    ensures value { end ≤ length code.now → result ≡ positioned (position_of (value_of ws.now (part code.now from end))) }
{
    position_of(value_at(code, from, end, ws))
}
