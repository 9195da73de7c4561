// The dice: a shift register as wide as a port's type, set once and rolled past its whole period from one plan.
// What comes in: the actor, on standard input. What goes out: the face of each roll, one to a line, or the number and the
// place of a refusal; tests/dice.py works the same faces out by its own arithmetic.
#![tactic(auto)]

ghost use Rattle.std.specs.Prelude.{◌≤◌, length};

use std::io::Read;

// One cycle that sets the register, then the rolls: more than the 255 states of eight bits.
const CYCLES: usize = 301;

// Ports of the actor: seed, load, face.
const PORTS: usize = 3;

// The room of the actor's text, and of its plan.
const TEXT: usize = 4096;

const PLAN: usize = 1024;

// Reads until there is no room or the input ends; a failed read is taken for the end. A loop, since std reads to the end
// only into a list on the heap.
fn fill(input: &mut impl Read, text: &mut [u8]) -> usize
    ensures { result ≤ length text.new }
{
    let mut n = 0;
    while n < text.len() {
        let more = input.read(&mut text[n..]).unwrap_or(0);
        if more == 0 {
            break;
        }
        n += more;
    }
    n
}

// The face of each cycle but the first; a failed write is dropped.
fn show(rt: &impl Print, outputs: &[u64])
    requires { 903 ≤ length outputs.now }
{
    for i in 1..CYCLES {
        let _ = println!(rt; "{}", outputs[PORTS * i + 2]);
    }
}

// Seed and load are present in the first cycle, the face in all others.
fn roll(rt: &impl Print, plan: &[u32]) {
    let mut masks = [4u32; CYCLES];
    masks[0] = 3;
    let values = [1u64; PORTS * CYCLES];
    let mut memory = [0u64; 1];
    let mut outputs = [0u64; PORTS * CYCLES];
    let mut answers = [0u32; 2 * CYCLES];
    let done = tipi::run(
        plan,
        &masks,
        &values,
        &mut memory,
        &mut outputs,
        &mut answers,
    );
    let _ = println!(rt; "{done}");
    show(rt, &outputs);
}

fn main(rt: HostRuntime) {
    let mut actor = [0u8; TEXT];
    let n = fill(&mut rt.stdin(), &mut actor);
    let mut plan = [0u32; PLAN];
    match tipi::read(&actor[..n], b"1\nseed 8\n0\n", &mut plan) {
        Ok(l) => {
            let end = l as usize;
            if end <= PLAN {
                roll(&rt, &plan[..end]);
            }
        }
        Err(why) => {
            let _ = println!(rt; "{}\n{}", why.row, why.place);
        }
    }
}
