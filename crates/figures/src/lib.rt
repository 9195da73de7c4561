// Where a run stands in its input, and numbers as they are read and written, digit by digit.
// What comes in: a state and a byte, or a number and a table of bytes. What goes out: the state after the byte; the number's
// bytes in the table.
#![tactic(auto)]

ghost use Rattle.std.specs.Prelude.{◌≡◌, ◌-◌};
ghost use Rattle.figures.specs.States.{most_of};

mod numbers;

pub use numbers::{next_number, number, put, text};

// What is to come next. `Through`, `Wrong` and `Stopped` read no more: all cycles were run, the
// input is not in form, or a row refused the texts at a place.
#[derive(Clone, Copy)]
pub enum Stage {
    ActorCount,
    Actor,
    BindingsCount,
    Bindings,
    CycleCount,
    Line,
    Through,
    Wrong,
    Stopped(u32, u32),
}

// What is counted stands beside the stage and not in it, since four stages have a number, three what is left, and
// `tipirun::passed` asks for what is left before it asks for the stage.
#[derive(Clone, Copy)]
pub struct State {
    pub stage: Stage,
    // The number that is being read, once a digit of it was met.
    pub number: Option<u64>,
    // Bytes of the text, or cycles, that are to come.
    pub left: u64,
    // In a cycle's line: 0 at the mask, i + 1 at the value of port i.
    pub port: u32,
    pub mask: u32,
    // The lengths of the two texts, as far as they are kept, and of the plan.
    pub actor: usize,
    pub bindings: usize,
    pub plan: usize,
    // Bytes that wait to be written.
    pub at: usize,
}

// The greatest mask, of 32 bits, and the greatest value, of 64.
const MASK: u64 = u32::MAX as u64;

const VALUE: u64 = u64::MAX;

impl State {
    ghost use Rattle.figures.specs.States.{begin_of, start_of, wrong_of, port_of, emptied_of, open_of, takes_of, stays_of, line_takes, longer_of};

    pub fn begin() -> State
        ensures { result ≡ begin_of }
    {
        State {
            stage: Stage::ActorCount,
            number: None,
            left: 0,
            port: 0,
            mask: 0,
            actor: 0,
            bindings: 0,
            plan: 0,
            at: 0,
        }
    }

    // A stage starts, with so much to come, before the first digit of a number.
    pub fn at_stage(self, stage: Stage, left: u64) -> State
        ensures { result ≡ start_of self stage left }
    {
        State {
            stage,
            number: None,
            left,
            port: 0,
            ..self
        }
    }

    pub fn wrong(self) -> State
        ensures { result ≡ wrong_of self }
    {
        self.at_stage(Stage::Wrong, 0)
    }

    // The value of another port is to come.
    pub fn at_port(self, mask: u32, port: u32) -> State
        ensures { result ≡ port_of self mask port }
    {
        State {
            stage: Stage::Line,
            number: None,
            port,
            mask,
            ..self
        }
    }

    // What waited has been written.
    pub fn emptied(self) -> State
        ensures { result ≡ emptied_of self }
    {
        State { at: 0, ..self }
    }

    // Whether any byte could still matter.
    pub fn goes_on(self) -> bool
        ensures { result ≡ open_of self.stage }
    {
        !matches!(
            self.stage,
            Stage::Through | Stage::Wrong | Stage::Stopped(_, _)
        )
    }

    // Whether a byte is the number's next digit: none stands after a 0.
    #[tactic(auto, unfolding(crate::specs::States::takes_of, language::specs::Words::digit))]
    pub fn takes(self, b: u8) -> bool
        ensures { result ≡ takes_of self b }
    {
        b.is_ascii_digit() && self.number.is_none_or(|n| 0 < n)
    }

    // Whether a cycle's line has room for it: a mask is under 2^32, a value under 2^64.
    #[tactic(auto, unfolding(crate::specs::States::stays_of))]
    fn stays(self, b: u8) -> bool
        ensures { result ≡ stays_of self b }
    {
        let n = u128::from(self.number.unwrap_or(0));
        n * 10 + u128::from(digit_value(b)) <= u128::from(most(self.port))
    }

    // Whether a byte is the next digit of a number in a cycle's line.
    #[tactic(auto, unfolding(crate::specs::States::line_takes))]
    pub fn takes_in_line(self, b: u8) -> bool
        ensures { result ≡ line_takes self b }
    {
        self.takes(b) && self.stays(b)
    }

    // The number with one more digit; a count that passes 64 bits stays at their greatest number, which no input meets.
    #[tactic(auto, unfolding(crate::specs::States::longer_of))]
    pub fn longer(self, b: u8) -> State
        ensures { result ≡ longer_of self b }
    {
        let n = self.number.unwrap_or(0);
        State {
            number: Some(n.saturating_mul(10).saturating_add(digit_value(b))),
            ..self
        }
    }
}

// The value of a digit.
fn digit_value(b: u8) -> u64
    ensures { result ≡ b - 48 }
{
    u64::from(b.saturating_sub(b'0'))
}

// The greatest number that may stand in a cycle's line: a mask, or a value.
#[tactic(auto, unfolding(crate::specs::States::most_of))]
fn most(port: u32) -> u64
    ensures { result ≡ most_of port }
{
    if port == 0 { MASK } else { VALUE }
}
