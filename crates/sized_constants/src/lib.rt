// The value of a sized constant: its digits are of any length, so it is exact or known to be too big.
// What comes in: a text and the place of the constant's `'`. What goes out: its value, or that 64 bits do not hold it;
// the base that a letter names.
#![tactic(auto)]

ghost use Rattle.std.specs.Prelude.{◌≡◌, true, ℕ, ◌+◌, ◌*◌, ◌≤◌, length, drop};
ghost use Rattle.language.specs.Words.{digit_of, digit_in, base_of, span as span_of, value_in_base};
ghost use Rattle.sized_constants.specs.Constant.{amount_of, constant_at, most_base};

// The base that a letter after `'` names; 0 where it names none, as `base_of` has it.
pub fn base(b: u8) -> usize
    ensures { result ≡ base_of b }
{
    match b {
        b'd' | b'D' => 10,
        b'o' | b'O' => 8,
        b'h' | b'H' => 16,
        b'b' | b'B' => 2,
        _ => 0,
    }
}

// The value with one digit more; none where 64 bits do not hold it, and what is too big stays so.
#[tactic(auto, unfolding(crate::specs::Constant::amount_of))]
fn raised(base: usize, v: Option<u64>, b: u8) -> Option<u64>
    requires { (base ≤ most_base) × (digit_in base b ≡ true) }
    ensures { (n : ℕ) → v ≡ amount_of n → result ≡ amount_of (n * base + digit_of b) }
{
    let digit = spans::digit_of(b) as u64;
    v?.checked_mul(base as u64)?.checked_add(digit)
}

// The digits of a base from a place on.
fn digits(text: &[u8], from: usize, base: usize) -> Option<u64>
    requires { (from ≤ length text.now) × (base ≤ most_base) }
    ensures { result ≡ amount_of (value_in_base base 0 (span_of (digit_in base) (drop from text.now))) }
{
    let mut v = Some(0);
    for i in from..text.len() {
        if !spans::digit_in(base, text[i]) {
            return v;
        }
        v = raised(base, v, text[i]);
    }
    v
}

// The value of the sized constant whose `'` stands at a place; none where 64 bits do not hold it.
pub fn constant(text: &[u8], at: usize) -> Option<u64>
    ensures { result ≡ amount_of (constant_at text.now at) }
{
    if text.len() <= at || text.len() <= at + 1 {
        return Some(0);
    }
    digits(text, at + 2, base(text[at + 1]))
}
