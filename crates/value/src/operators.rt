// The operators of 4.8.3 that stand before an operand or between two.
#![tactic(auto, unfolding(language::specs::Values::divide_of, language::specs::Values::remainder_of, language::specs::Values::left_of, language::specs::Values::right_of, language::specs::Values::binary_width, language::specs::Values::unary_width))]

ghost use Rattle.std.specs.Prelude.{◌≡◌, ◌^◌, ◌<◌, ◌≤◌};
ghost use Rattle.language.specs.Values.{add_of, subtract_of, divide_of, remainder_of, left_of, right_of, binary_width, binary_value, unary_width, unary_value};
ghost use Rattle.bits.specs.Fits.{BinaryFits, UnaryFits};

use bits::{all_ones, complement, low, odd, one_bit};
use language::{Binary, Unary};

// Wraps on purpose at 64 bits, and then at w.
fn add(w: u32, a: u64, b: u64) -> u64
    requires { w ≤ 64 }
    ensures { result ≡ add_of w a b }
{
    low(a.wrapping_add(b), w)
}

// Wraps on purpose at 64 bits, and then at w.
#[tactic(auto, using(bits::proofs::Laws::minus), unfolding(language::specs::Values::subtract_of))]
fn subtract(w: u32, a: u64, b: u64) -> u64
    requires { (w ≤ 64) × (b < 2 ^ w) }
    ensures { result ≡ subtract_of w a b }
{
    low(a.wrapping_sub(b), w)
}

// By zero all ones.
fn divide(w: u32, a: u64, b: u64) -> u64
    requires { w ≤ 64 }
    ensures { result ≡ divide_of w a b }
{
    if b == 0 { all_ones(w) } else { a / b }
}

// By zero the left operand.
fn remainder(a: u64, b: u64) -> u64
    ensures { result ≡ remainder_of a b }
{
    if b == 0 { a } else { a % b }
}

// The amount may be any number, so it is tested before the machine shifts.
fn left(w: u32, a: u64, amount: u64) -> u64
    requires { w ≤ 64 }
    ensures { result ≡ left_of w a amount }
{
    if u64::from(w) <= amount {
        0
    } else {
        low(a << amount, w)
    }
}

// Tested as for `left`; what passes the right end is lost.
fn right(w: u32, a: u64, amount: u64) -> u64
    requires { w ≤ 64 }
    ensures { result ≡ right_of w a amount }
{
    if u64::from(w) <= amount {
        0
    } else {
        a >> amount
    }
}

// The width of what an operator between widths m and n gives.
pub fn binary_width(op: Binary, m: u32, n: u32) -> u32
    requires { (m ≤ 64) × (n ≤ 64) }
    ensures { result ≡ binary_width op m n }
{
    match op {
        Binary::Multiply => m + n,
        Binary::Divide | Binary::Remainder | Binary::Left | Binary::Right => m,
        Binary::Add | Binary::Subtract => m.max(n),
        Binary::And | Binary::NotAnd => m.max(n),
        Binary::Xor | Binary::NotXor => m.max(n),
        Binary::Or | Binary::NotOr => m.max(n),
        Binary::Less | Binary::AtMost | Binary::Greater | Binary::AtLeast => 1,
        Binary::Equal | Binary::Unequal | Binary::Both | Binary::Either => 1,
    }
}

// What an operator gives between a, of m bits, and b, of n.
#[tactic(auto, unfolding(language::specs::Values::binary_value, language::specs::Values::truth))]
pub fn binary(op: Binary, m: u32, n: u32, a: u64, b: u64) -> u64
    requires { BinaryFits op m n a b }
    ensures { result ≡ binary_value op m n a b }
{
    let w = m.max(n);
    match op {
        Binary::Multiply => a * b,
        Binary::Divide => divide(m, a, b),
        Binary::Remainder => remainder(a, b),
        Binary::Add => add(w, a, b),
        Binary::Subtract => subtract(w, a, b),
        Binary::Left => left(m, a, b),
        Binary::Right => right(m, a, b),
        Binary::Less => one_bit(a < b),
        Binary::AtMost => one_bit(a <= b),
        Binary::Greater => one_bit(a > b),
        Binary::AtLeast => one_bit(a >= b),
        Binary::Equal => one_bit(a == b),
        Binary::Unequal => one_bit(a != b),
        Binary::And => a & b,
        Binary::NotAnd => complement(w, a & b),
        Binary::Xor => a ^ b,
        Binary::NotXor => complement(w, a ^ b),
        Binary::Or => a | b,
        Binary::NotOr => complement(w, a | b),
        Binary::Both => one_bit((a != 0) & (b != 0)),
        Binary::Either => one_bit((a != 0) | (b != 0)),
    }
}

// The width of what an operator before width w gives.
pub fn unary_width(op: Unary, w: u32) -> u32
    ensures { result ≡ unary_width op w }
{
    match op {
        Unary::Invert | Unary::Plus => w,
        Unary::Not | Unary::All | Unary::NotAll | Unary::Any => 1,
        Unary::NotAny | Unary::Odd | Unary::NotOdd => 1,
    }
}

// What an operator gives before a, of w bits.
#[tactic(auto, using(bits::proofs::Counts::ones_within), unfolding(language::specs::Values::unary_value, language::specs::Values::truth))]
pub fn unary(op: Unary, w: u32, a: u64) -> u64
    requires { UnaryFits w a }
    ensures { result ≡ unary_value op w a }
{
    match op {
        Unary::Invert => complement(w, a),
        Unary::Plus => a,
        Unary::Not => one_bit(a == 0),
        Unary::All => one_bit(a == all_ones(w)),
        Unary::NotAll => one_bit(a != all_ones(w)),
        Unary::Any => one_bit(a != 0),
        Unary::NotAny => one_bit(a == 0),
        Unary::Odd => odd(a),
        Unary::NotOdd => 1 - odd(a),
    }
}
