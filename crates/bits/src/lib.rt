// Numbers as their bits: the low ones, all of them the other way, how many are ones.
// What comes in: numbers and widths up to 64, masks of ports.
// What goes out: one number for each, the one that `language`'s specs/Values.antt defines.
#![tactic(auto)]

ghost use Rattle.std.specs.Prelude.{◌≡◌, ◌-◌, ◌%◌, ◌^◌, ◌≤◌, ◌<◌};
ghost use Rattle.language.specs.Values.{ones_of, one_bit};
ghost use Rattle.language.specs.Values.{complement as values_complement, plain_width as values_plain_width};
ghost use Rattle.bits.specs.Masks.{matches_of};

// The low w bits of x. A shift cannot make the mask of all 64, so that width stands apart here.
pub fn low(x: u64, w: u32) -> u64
    ensures { result ≡ x % 2 ^ w }
{
    if w < 64 { x & ((1u64 << w) - 1) } else { x }
}

// The number of w ones.
pub fn all_ones(w: u32) -> u64
    requires { w ≤ 64 }
    ensures { result ≡ 2 ^ w - 1 }
{
    low(u64::MAX, w)
}

// The w bits of a, each the other way.
pub fn complement(w: u32, a: u64) -> u64
    requires { (w ≤ 64) × (a < 2 ^ w) }
    ensures { result ≡ values_complement w a }
{
    low(!a, w)
}

// A truth as a number of one bit.
#[tactic(auto, unfolding(language::specs::Values::one_bit))]
pub fn one_bit(holds: bool) -> u64
    ensures { result ≡ one_bit holds }
{
    u64::from(holds)
}

// 1 where the ones among a's bits are odd in number.
#[tactic(auto, using(crate::proofs::Counts::ones_are))]
pub fn odd(a: u64) -> u64
    ensures { result ≡ ones_of 64 a % 2 }
{
    u64::from(a.count_ones() % 2)
}

// The fewest bits that hold n, at least 1.
pub fn plain_width(n: u64) -> u32
    ensures { result ≡ values_plain_width n }
{
    if n == 0 { 1 } else { 64 - n.leading_zeros() }
}

// How many ports a mask has present.
#[tactic(auto, using(crate::proofs::Counts::ones_are))]
pub fn present(mask: u32) -> u32
    ensures { result ≡ ones_of 32 mask }
{
    mask.count_ones()
}

// A rule matches: its ports required present are in the mask, and none required absent is. `&` and no `&&`: a branch less for
// each rule of a cycle.
#[tactic(auto, using(crate::proofs::Sets::tests_tell), unfolding(crate::specs::Masks::matches_of))]
pub fn matches(mask: u32, present: u32, absent: u32) -> bool
    ensures { result ≡ matches_of mask present absent }
{
    (mask & present == present) & (mask & absent == 0)
}
