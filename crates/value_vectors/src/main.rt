// Runs the operators of `value` on vectors, which tests/value_vectors.py makes from document 01.
// What comes in: lines of five numbers, which operator (`answer`), two widths or places, two operands.
// What goes out: a line for each, the number that the operator gives, or `refused` where a `requires` is not met.
#![tactic(auto)]

mod lines;

ghost use Rattle.std.specs.Prelude.{◌≡◌, ◌^◌, ltb};

use language::{Binary, Unary};
use lines::{line, width};

// The standard streams, as file descriptors.
const STDIN: i32 = 0;

const STDOUT: i32 = 1;

// Whether a has at most w bits.
fn within(w: u32, a: u64) -> bool
    ensures { result ≡ ltb a (2 ^ w) }
{
    bits::low(a, w) == a
}

// One call of `value` for each operator, where what it requires is met.
#[tactic(auto, using(crate::proofs::Tested::passed))]
fn try_binary(op: Binary, m: u32, n: u32, a: u64, b: u64) -> Option<u64> {
    let fit = m <= 64 && n <= 64 && within(m, a) && within(n, b);
    (fit && value::binary_width(op, m, n) <= 64).then(|| value::binary(op, m, n, a, b))
}

fn try_binary_width(op: Binary, m: u32, n: u32) -> Option<u64> {
    (m <= 64 && n <= 64).then(|| u64::from(value::binary_width(op, m, n)))
}

#[tactic(auto, using(crate::proofs::Tested::passed))]
fn try_unary(op: Unary, w: u32, a: u64) -> Option<u64> {
    (w <= 64 && within(w, a)).then(|| value::unary(op, w, a))
}

#[tactic(auto, using(crate::proofs::Tested::beside_tested))]
fn try_beside(m: u32, n: u32, a: u64, b: u64) -> Option<u64> {
    (m <= 64 && n <= 64 - m && within(m, a) && within(n, b)).then(|| ranges::beside(n, a, b))
}

#[tactic(auto, using(crate::proofs::Tested::passed))]
fn try_copies(k: u32, w: u32, a: u64) -> Option<u64> {
    (k <= 64 && w <= 64 && k * w <= 64 && within(w, a)).then(|| ranges::copies(k, w, a))
}

fn try_range_width(i: u32, j: u32) -> Option<u64> {
    (i < 64 && j < 64).then(|| u64::from(ranges::range_width(i, j)))
}

fn try_range(a: u64, i: u32, j: u32) -> Option<u64> {
    (i < 64 && j < 64).then(|| ranges::range(a, i, j))
}

// What a vector asks for: 0 to 20 between, 21 to 29 before, 100 more their widths, 30 to 38 the others.
fn answer(what: u64, m: u32, n: u32, a: u64, b: u64) -> Option<u64> {
    let what = u32::try_from(what).ok()?;
    match what {
        0..=20 => try_binary(Binary::try_from(what).ok()?, m, n, a, b),
        21..=29 => try_unary(Unary::try_from(what - 21).ok()?, m, a),
        30 => Some(bits::low(a, m)),
        31 => Some(u64::from(bits::plain_width(a))),
        32 => Some(u64::from(bits::present(m))),
        33 => Some(u64::from(bits::matches(m, n, width(a)))),
        34 => try_beside(m, n, a, b),
        35 => try_copies(n, m, a),
        36 => try_range_width(m, n),
        37 => try_range(a, m, n),
        38 => Some(ranges::chosen(u64::from(m), a, b)),
        100..=120 => try_binary_width(Binary::try_from(what - 100).ok()?, m, n),
        121..=129 => {
            let op = Unary::try_from(what - 121).ok()?;
            Some(u64::from(value::unary_width(op, m)))
        }
        _ => None,
    }
}

fn print(t: Option<u64>) -> bool {
    match t {
        Some(x) => io::print_decimal(STDOUT, x),
        None => io::write_all(STDOUT, b"refused"),
    }
}

// Every line in turn: a `while`, since a line itself tells where the next begins.
fn run(s: &[u8]) {
    let mut at = 0;
    while at < s.len() {
        let v = line(s, at);
        print(answer(v.what, v.m, v.n, v.a, v.b));
        io::write_all(STDOUT, b"\n");
        at = v.next;
    }
}

fn main() {
    let mut buffer = io::large_buffer();
    let n = io::read_full(STDIN, &mut buffer);
    run(&buffer[..n]);
}
