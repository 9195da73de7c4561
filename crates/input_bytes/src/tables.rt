// The tables of a run.
ghost use Rattle.std.specs.Prelude.{◌≡◌, ◌+◌, ◌≤◌, length};
ghost use Rattle.cycle_line.specs.Shown.{line_bytes, cells_bytes};
ghost use Rattle.figures.specs.Written.{Wrote};

use figures::State;

// One byte more than a text may have: so that one over its limit is told from one at it.
const ACTOR: usize = language::Actor::BYTES as usize + 1;

const BINDINGS: usize = language::Bindings::BYTES as usize + 1;

const PORTS: usize = language::Plan::PORTS as usize;

const CELLS: usize = language::Plan::CELLS as usize;

// "the plan table holds 16,384 numbers"
const ROOM: usize = 16384;

// A line is of 378 bytes at most, and the cells of 5,377; a program may read 64 bytes at once, each of which may end a line.
const OUT: usize = 32768;

// The two texts and the plan, whose lengths the state has; the ports' values and outputs; the cells; and the bytes that wait to be written.
#[derive(Drop)]
pub struct Tables {
    pub actor: [u8; ACTOR],
    pub bindings: [u8; BINDINGS],
    pub plan: [u32; ROOM],
    pub values: [u64; PORTS],
    pub outputs: [u64; PORTS],
    pub memory: [u64; CELLS],
    pub out: [u8; OUT],
}

impl Tables {
    ghost use Rattle.input_bytes.specs.Tables.{empty_tables, SameButOut};
    ghost use Rattle.input_bytes.specs.Bytes.{machine_of, moved_of, ended_of, TablesStand};

    pub fn new() -> Tables
        ensures { result ≡ empty_tables }
    {
        Tables {
            actor: [0; ACTOR],
            bindings: [0; BINDINGS],
            plan: [0; ROOM],
            values: [0; PORTS],
            outputs: [0; PORTS],
            memory: [0; CELLS],
            out: [0; OUT],
        }
    }

    // What a byte does at each stage, with these tables.
    pub fn moved(&mut self, s: State, b: u8) -> State
        requires { s.at + line_bytes ≤ length self.old.out }
        ensures { TablesStand (moved_of (machine_of s self.old) b) self.old.out s.at line_bytes (machine_of result self.new) self.new.out }
    {
        crate::moved(
            s,
            b,
            &mut self.actor,
            &mut self.bindings,
            &self.plan,
            &mut self.values,
            &mut self.outputs,
            &mut self.memory,
            &mut self.out,
        )
    }

    // The input has ended, or no more of it is read: only `out` is written.
    pub fn ended(&mut self, s: State) -> usize
        requires { s.at + cells_bytes ≤ length self.old.out }
        ensures written { Wrote self.old.out s.at (ended_of (machine_of s self.old)) cells_bytes result self.new.out }
        ensures others { SameButOut self.old self.new }
    {
        crate::ended(s, &self.plan, &self.memory, &mut self.out)
    }
}
