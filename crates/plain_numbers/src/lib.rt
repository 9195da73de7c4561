// A plain number, whose digits are of any length: its value, or that it is over the limit.
// What comes in: a text and the place of a digit. What goes out: the number's word, or that it is wrong.
// The value stops growing past the limit, so that 64 bits hold it.
#![tactic(auto)]

ghost use Rattle.std.specs.Prelude.{◌≡◌, true, ◌≤◌, ◌<◌, length, drop, get_or};
ghost use Rattle.language.specs.Words.{digit, span as span_of, number_next};
ghost use Rattle.signs.specs.Tells.{Tells};
ghost use Rattle.plain_numbers.specs.Plain.{capped_of, most_capped, number_item};

use signs::{Item, kinds};

const NUMBER: u64 = language::Actor::NUMBER as u64;

// A plain number.
#[tactic(auto, using(crate::proofs::Amounts::count_laws))]
pub fn number(text: &[u8], at: usize) -> Item
    requires at_in_bounds { at < length text.now }
    requires at_value { digit (get_or text.now at 0) ≡ true }
    ensures { Tells text.now at (number_next (span_of digit (drop at text.now))) result }
{
    let mut v = 0;
    for (n, &b) in text[at..].iter().enumerate() {
        if !spelling::is_digit(b) {
            return number_of(n, v);
        }
        v = grown(v, b);
    }
    number_of(text.len() - at, v)
}

// The value with one digit more; past the limit it stops growing.
#[tactic(auto, using(std::proofs::lemmas::Bool::Decides::nat_tests), unfolding(crate::specs::Plain::capped_of, language::specs::Words::digit))]
fn grown(v: u64, b: u8) -> u64
    requires { (digit b ≡ true) × (v ≤ most_capped) }
    ensures { result ≡ capped_of v b }
{
    if v <= NUMBER {
        v * 10 + u64::from(b - b'0')
    } else {
        v
    }
}

// A plain number of n bytes, if its value is within the limit.
#[tactic(auto, using(std::proofs::lemmas::Bool::Decides::nat_tests), unfolding(crate::specs::Plain::number_item))]
fn number_of(n: usize, v: u64) -> Item
    ensures { result ≡ number_item n v }
{
    if v <= NUMBER {
        // the limit fits 32 bits: `try_from` would test the same once more
        Item::Word(kinds::NUMBER, n, v as u32)
    } else {
        Item::Wrong
    }
}
