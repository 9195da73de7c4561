// The worked run of document 01: an actor, its bindings and cycles on standard input, of any length.
// What comes in: bytes, a few at a time. What goes out: a line for each cycle and the cells; or a
// refusal's number and place; or `bad`. What each byte does is proved; `main` only moves bytes.
#![tactic(auto)]

mod steps;
mod texts;

use figures::State;
use input_bytes::Tables;
use std::io::{Read, Write};
use steps::feed;

// How much is read at once, so that the lines of all its bytes have room in the table of bytes that wait.
const PART: usize = 64;

fn main(rt: HostRuntime) {
    let mut tables = Tables::new();
    let mut input = [0u8; PART];
    let mut stdin = rt.stdin();
    let mut stdout = rt.stdout();
    let mut s = State::begin();
    for _turn in 0..u64::MAX {
        if !s.goes_on() {
            break;
        }
        let n = stdin.read(&mut input).unwrap_or(0);
        if n == 0 {
            break;
        }
        s = feed(s, &input[..n], &mut tables);
        let _ = stdout.write_all(&tables.out[..s.at]);
        s = s.emptied();
    }
    let end = tables.ended(s);
    let _ = stdout.write_all(&tables.out[..end]);
}
