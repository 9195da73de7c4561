// Exact values of types: whole numbers with logs that are not rounded, until a value is floored.
// What comes in: numbers, and values that leave room for a sum and a product.
// What goes out: a value, its comparison, and at the end a width or a bit position.
#![tactic(auto)]

ghost use Rattle.std.specs.Prelude.{◌≡◌, ◌+◌, ◌*◌, ◌^◌, ◌≤◌, ◌<◌, leb};
ghost use Rattle.language.specs.Types.{whole_of, log_of, plus_of, minus_of, not_above, greater_of, log_down, log_up, floor_of, ceil_of, width_of, position_of};
ghost use Rattle.exact.specs.Room.{Space, Room, positioned};

use language::Exact;

// A whole number, as a bound width or a port's width is one.
pub fn number(n: u64) -> Exact
    ensures { result ≡ whole_of n 0 }
{
    Exact {
        up: n,
        down: 0,
        a: 1,
        b: 1,
    }
}

// The log stays exact: only its argument is kept.
pub fn log(n: u64) -> Exact
    ensures { result ≡ log_of n }
{
    Exact {
        up: 0,
        down: 0,
        a: n.max(2),
        b: 1,
    }
}

pub fn plus(x: Exact, y: Exact) -> Exact
    requires { Room x y }
    ensures { result ≡ plus_of x y }
{
    Exact {
        up: x.up + y.up,
        down: x.down + y.down,
        a: x.a * y.a,
        b: x.b * y.b,
    }
}

// What is subtracted goes to the other side, so that nothing is below zero.
pub fn minus(x: Exact, y: Exact) -> Exact
    requires { Room x y }
    ensures { result ≡ minus_of x y }
{
    Exact {
        up: x.up + y.down,
        down: x.down + y.up,
        a: x.a * y.b,
        b: x.b * y.a,
    }
}

// 2^p a is at most 2^q b. The powers are too big for a word: the smaller one goes away, and the other is a shift of the other side.
fn at_most(p: u64, a: u64, q: u64, b: u64) -> bool
    ensures { result ≡ leb (2 ^ p * a) (2 ^ q * b) }
{
    if p <= q {
        let d = q - p;
        a == 0 || if d < 64 { (a - 1) >> d < b } else { 0 < b }
    } else {
        let d = p - q;
        if d < 64 { a <= b >> d } else { a == 0 }
    }
}

#[tactic(auto, unfolding(language::specs::Types::not_above))]
fn not_above(x: Exact, y: Exact) -> bool
    requires { Room x y }
    ensures { result ≡ not_above x y }
{
    at_most(x.up + y.down, x.a * y.b, y.up + x.down, y.a * x.b)
}

#[tactic(auto, unfolding(language::specs::Types::greater_of))]
pub fn greater(x: Exact, y: Exact) -> Exact
    requires { Room x y }
    ensures { result ≡ greater_of x y }
{
    if not_above(x, y) { y } else { x }
}

// The bits of a quotient count the powers of two in it: no loop.
#[tactic(auto, using(crate::proofs::Logs::down_zero, crate::proofs::Logs::down_log))]
fn log_down(a: u64, b: u64) -> u64
    requires { 0 < b }
    ensures { (result ≡ log_down a b) × (result ≤ 64) }
{
    if a < b { 0 } else { u64::from((a / b).ilog2()) }
}

fn log_up(a: u64, b: u64) -> u64
    requires { (0 < a) × (0 < b) }
    ensures { (result ≡ log_up a b) × (result ≤ 64) }
{
    u64::from(64 - ((a - 1) / b).leading_zeros())
}

#[tactic(auto, unfolding(language::specs::Types::floor_of))]
pub fn floor(x: Exact) -> Exact
    requires { Space x }
    ensures { result ≡ floor_of x }
{
    Exact {
        up: x.up + log_down(x.a, x.b),
        down: x.down + log_up(x.b, x.a),
        a: 1,
        b: 1,
    }
}

#[tactic(auto, unfolding(language::specs::Types::ceil_of))]
pub fn ceil(x: Exact) -> Exact
    requires { Space x }
    ensures { result ≡ ceil_of x }
{
    Exact {
        up: x.up + log_up(x.a, x.b),
        down: x.down + log_down(x.b, x.a),
        a: 1,
        b: 1,
    }
}

// Floored at the end; below zero it is 0.
#[tactic(auto, unfolding(language::specs::Types::width_of))]
pub fn width_of(x: Exact) -> u64
    requires { Space x }
    ensures { result ≡ width_of x }
{
    let f = floor(x);
    f.up.saturating_sub(f.down)
}

// A bit position: floored at the end; one below zero is outside, None.
pub fn position_of(x: Exact) -> Option<u64>
    requires { Space x }
    ensures { result ≡ positioned (position_of x) }
{
    let f = floor(x);
    f.up.checked_sub(f.down)
}
