// The end of a run: what is still to be written.
ghost use Rattle.std.specs.Prelude.{[], ◌∷◌, ◌+◌, ◌*◌, ◌≤◌, length};
ghost use Rattle.cycle_line.specs.Shown.{cells_bytes};
ghost use Rattle.figures.specs.Written.{number_bytes};
ghost use Rattle.language.specs.Limits.{limits};
ghost use Rattle.language.specs.Worked.{line, is_bad};
ghost use Rattle.figures.specs.Written.{Wrote, blanked};
ghost use Rattle.input_bytes.specs.Bytes.{machine, ended_of};

use crate::turns::{cells, planned};
use figures::{Stage, State, next_number, number, put, text};

// Some numbers, each after a blank.
fn numbers(all: &[u64], out: &mut [u8], at: usize) -> usize
    requires { at + number_bytes * length all.now ≤ length out.old }
    ensures { Wrote out.old at (blanked all.now) (number_bytes * length all.now) result out.new }
{
    let mut k = at;
    for n in all {
        k = next_number(out, k, *n);
    }
    k
}

// All cells on one line.
fn show_cells(all: &[u64], out: &mut [u8], at: usize) -> usize
    requires { at + (number_bytes * length all.now + 1) ≤ length out.old }
    ensures { Wrote out.old at (line all.now) (number_bytes * length all.now + 1) result out.new }
{
    match all.split_first() {
        None => put(out, at, b'\n'),
        Some((first, others)) => {
            let k = number(out, at, *first);
            let e = numbers(others, out, k);
            put(out, e, b'\n')
        }
    }
}

// A refusal's number and place.
fn show_refusal(row: u32, place: u32, out: &mut [u8], at: usize) -> usize
    requires { at + 2 * number_bytes ≤ length out.old }
    ensures { Wrote out.old at (line (row ∷ place ∷ [])) (2 * number_bytes) result out.new }
{
    let k = number(out, at, u64::from(row));
    let e = next_number(out, k, u64::from(place));
    put(out, e, b'\n')
}

fn show_bad(out: &mut [u8], at: usize) -> usize
    requires { at + 4 ≤ length out.old }
    ensures { Wrote out.old at is_bad 4 result out.new }
{
    text(out, at, b"bad\n")
}

// The input has ended, or no more of it is read.
pub fn ended(s: State, plan: &[u32], memory: &[u64], out: &mut [u8]) -> usize
    requires { (limits.cells ≤ length memory.now) × (s.at + cells_bytes ≤ length out.old) }
    ensures { Wrote out.old s.at (ended_of (machine s [] [] plan.now [] [] memory.now [])) cells_bytes result out.new }
{
    match s.stage {
        Stage::Through => {
            let n = cells(planned(plan, s.plan));
            show_cells(&memory[..n], out, s.at)
        }
        Stage::Stopped(row, place) => show_refusal(row, place, out, s.at),
        Stage::ActorCount
        | Stage::Actor
        | Stage::BindingsCount
        | Stage::Bindings
        | Stage::CycleCount
        | Stage::Line
        | Stage::Wrong => show_bad(out, s.at),
    }
}
