// What a byte of the input does at each stage, and what is still to be written where the input ends; all but the reading of the two texts.
// What comes in: a state, a byte, and the tables: of the texts, the plan, the ports and the cells, and of bytes to be written.
// What goes out: the state and the tables after the byte, a cycle's line at the end of its input line; the last bytes of a run.
#![tactic(auto)]

ghost use Rattle.std.specs.Prelude.{[]};
ghost use Rattle.cycle_line.specs.Shown.{line_bytes};
ghost use Rattle.input_bytes.specs.Lines.{Roomy};
ghost use Rattle.input_bytes.specs.Bytes.{machine, moved_of, TablesStand};

mod stops;
mod tables;
mod texts;
mod turns;

use figures::{Stage, State};
pub use stops::ended;
pub use tables::Tables;
use texts::{actor_byte, bindings_byte, count_byte};
use turns::line_byte;

// What a byte does at each stage.
pub fn moved(
    s: State,
    b: u8,
    actor: &mut [u8],
    bindings: &mut [u8],
    plan: &[u32],
    values: &mut [u64],
    outputs: &mut [u64],
    memory: &mut [u64],
    out: &mut [u8],
) -> State
    requires { Roomy values.old outputs.old memory.old out.old s.at }
    ensures { let before = machine s actor.old bindings.old plan.now values.old outputs.old memory.old [] in
        let after = machine result actor.new bindings.new plan.now values.new outputs.new memory.new [] in
        TablesStand (moved_of before b) out.old s.at line_bytes after out.new }
{
    match s.stage {
        Stage::ActorCount => count_byte(s, b, Stage::Actor),
        Stage::Actor => actor_byte(s, b, actor),
        Stage::BindingsCount => count_byte(s, b, Stage::Bindings),
        Stage::Bindings => bindings_byte(s, b, bindings),
        Stage::CycleCount => count_byte(s, b, Stage::Line),
        Stage::Line => line_byte(s, b, plan, values, outputs, memory, out),
        Stage::Through | Stage::Wrong | Stage::Stopped(_, _) => s,
    }
}
