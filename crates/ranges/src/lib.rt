// Values put together and taken apart: `{a, b}`, copies, `[i:j]`, and one of two.
// What comes in: numbers below 2 to the power of their widths, widths and positions up to 64.
// What goes out: one number for each, the one that `language`'s specs/Values.antt defines.
#![tactic(auto)]

ghost use Rattle.std.specs.Prelude.{◌≡◌, ◌≤◌, ◌<◌, ◌^◌};
ghost use Rattle.language.specs.Values.{beside_of, copies_of, range_width, range_of};
ghost use Rattle.language.specs.Values.{chosen as values_chosen};
ghost use Rattle.bits.specs.Fits.{CopiesFit};
ghost use Rattle.bits.specs.Reversal.{reversed_of};

use bits::low;

// a above b, which has n bits.
#[tactic(auto, using(bits::proofs::Laws::above), unfolding(language::specs::Values::beside_of))]
pub fn beside(n: u32, a: u64, b: u64) -> u64
    requires { beside_of n a b < 2 ^ 64 }
    ensures { result ≡ beside_of n a b }
{
    if n < 64 { (a << n) + b } else { b }
}

// k copies of a, which has w bits.
pub fn copies(k: u32, w: u32, a: u64) -> u64
    requires { CopiesFit k w a }
    ensures { result ≡ copies_of k w a }
{
    let mut r = 0;
    for _i in 0..k {
        r = beside(w, r, a);
    }
    r
}

// The width of `[i:j]`.
#[tactic(auto, unfolding(language::specs::Values::range_width))]
pub fn range_width(i: u32, j: u32) -> u32
    requires { (i < 64) × (j < 64) }
    ensures { result ≡ range_width i j }
{
    i.abs_diff(j) + 1
}

// The w low bits of a, the lowest first.
fn reversed(w: u32, a: u64) -> u64
    requires { w ≤ 64 }
    ensures { result ≡ reversed_of w a }
{
    let mut r = 0;
    for k in 0..w {
        r = beside(1, r, (a >> k) % 2);
    }
    r
}

// The bits i down to j of a, or i up to j the other way round.
#[tactic(auto, using(crate::proofs::Fits::range_within, crate::proofs::Parts::range_down, crate::proofs::Parts::range_up))]
pub fn range(a: u64, i: u32, j: u32) -> u64
    requires { (i < 64) × (j < 64) }
    ensures { result ≡ range_of a i j }
{
    let w = range_width(i, j);
    if j <= i {
        low(a >> j, w)
    } else {
        reversed(w, a >> i)
    }
}

// a where c is true, else b.
#[tactic(auto, unfolding(language::specs::Values::chosen, language::specs::Values::truth))]
pub fn chosen(c: u64, a: u64, b: u64) -> u64
    ensures { result ≡ values_chosen c a b }
{
    if c == 0 { b } else { a }
}
