// One byte, and a run of bytes.
ghost use Rattle.std.specs.Prelude.{◌+◌, ◌*◌, ◌≤◌, length};
ghost use Rattle.cycle_line.specs.Shown.{line_bytes};
ghost use Rattle.input_bytes.specs.Bytes.{machine_of};
ghost use Rattle.tipirun.specs.Machine.{Steps, Feeds};

use crate::texts::passed;
use figures::State;
use input_bytes::Tables;

// One byte.
pub fn step(s: State, b: u8, tables: &mut Tables) -> State
    requires { s.at + line_bytes ≤ length tables.old.out }
    ensures { Steps (machine_of s tables.old) b tables.old.out (machine_of result tables.new) tables.new.out }
{
    let t = tables.moved(s, b);
    passed(t, &tables.actor, &tables.bindings, &mut tables.plan)
}

// Some bytes.
pub fn feed(s: State, bytes: &[u8], tables: &mut Tables) -> State
    requires { s.at + line_bytes * length bytes.now ≤ length tables.old.out }
    ensures { Feeds (machine_of s tables.old) bytes.now tables.old.out (machine_of result tables.new) tables.new.out }
{
    let mut t = s;
    for b in bytes {
        t = step(t, *b, tables);
    }
    t
}
