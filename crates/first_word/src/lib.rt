// What stands first at a place of a text: a separator, a word, or what is none.
// What comes in: a text and a place. What goes out: the separator's length; the word's kind, length and, of a plain
// number, value; or that the text is over or no word stands there.
#![tactic(auto)]

ghost use Rattle.std.specs.Prelude.{◌≡◌, true, ◌+◌, ◌≤◌, ◌<◌, length, drop, get_or};
ghost use Rattle.language.specs.Words.{span as span_of, gap as gap_of, name_byte, own_name, named_next, name_next, quote_next, next as next_of};
ghost use Rattle.spelling.specs.Fixed.{fixed_rows};
ghost use Rattle.signs.specs.Signs.{row_kind};
ghost use Rattle.signs.specs.Tells.{Tells};

use signs::{Item, kinds};
use spans::Class;

// The run of name bytes at a place.
fn run_at(text: &[u8], at: usize) -> &[u8]
    ensures { result.now ≡ span_of name_byte (drop at text.now) }
{
    spans::part(text, at, spans::run(text, at))
}

// Whether a name stands at a place, and no keyword nor a word of row 4.
#[tactic(auto, using(crate::proofs::Spelled::own_fixed, crate::proofs::Spelled::own_other))]
fn own_name(text: &[u8], at: usize) -> bool
    ensures { result ≡ own_name (span_of name_byte (drop at text.now)) }
{
    let run = run_at(text, at);
    spelling::FIXED <= spelling::spelled(run) && spelling::good_name(run)
}

// Whether separators stand at a place, and after them a name.
fn named(text: &[u8], at: usize) -> bool
    requires { at ≤ length text.now }
    ensures { result ≡ named_next (drop at text.now) }
{
    if gaps::gap(text, at) == 0 {
        return false;
    }
    let p = gaps::after_gaps(text, at);
    p < text.len() && !spelling::is_digit(text[p]) && own_name(text, p)
}

// The kind of a fixed word that is spelled like a name. The keywords' kinds go in the order of the words, so that no table of all is plainer.
#[tactic(auto, using(std::proofs::lemmas::Bool::Decides::nat_tests), unfolding(signs::specs::Signs::row_kind))]
fn row_kind(row: usize) -> u32
    requires { row < fixed_rows }
    ensures { result ≡ row_kind row }
{
    match row {
        18 => kinds::DEFAULT,
        19 => kinds::FOREACH,
        20 => kinds::INSTRUCTION,
        _ => kinds::INPUT + row as u32,
    }
}

// A name, a keyword, the default mark or a word of row 4.
#[tactic(auto, using(crate::proofs::Spelled::name_laws))]
fn name(text: &[u8], at: usize) -> Item
    requires at_in_bounds { at < length text.now }
    requires at_value { name_byte (get_or text.now at 0) ≡ true }
    ensures { Tells text.now at (name_next (span_of name_byte (drop at text.now))) result }
{
    let run = run_at(text, at);
    let row = spelling::spelled(run);
    if row < spelling::FIXED {
        Item::Word(row_kind(row), run.len(), 0)
    } else if spelling::good_name(run) {
        Item::Word(kinds::NAME, run.len(), 0)
    } else {
        Item::Wrong
    }
}

// The word at a `'`.
#[tactic(auto, using(crate::proofs::Parts::quote_laws), unfolding(spans::specs::Spans::test_of))]
fn quote(text: &[u8], at: usize) -> Item
    requires { at < length text.now }
    ensures { Tells text.now at (quote_next (drop (at + 1) text.now)) result }
{
    if text.len() <= at + 1 {
        return Item::Wrong;
    }
    let base = sized_constants::base(text[at + 1]);
    let n = spans::span(text, at + 2, Class::Digits(base));
    if 0 < n {
        Item::Word(kinds::DIGITS, n + 2, 0)
    } else if base == 10 && named(text, at + 2) {
        Item::Word(kinds::VALUE, 2, 0)
    } else {
        Item::Wrong
    }
}

// What stands first at a place that is no separator and not the end.
#[tactic(auto, using(crate::proofs::Parts::word_laws))]
fn word(text: &[u8], at: usize) -> Item
    requires { (at < length text.now) × (gap_of (drop at text.now) ≡ 0) }
    ensures { Tells text.now at (next_of (drop at text.now)) result }
{
    let b = text[at];
    if spelling::is_digit(b) {
        plain_numbers::number(text, at)
    } else if spelling::is_name_byte(b) {
        name(text, at)
    } else if b == b'\'' {
        quote(text, at)
    } else if spans::pair(text, at, b'/', b'*') {
        // a comment that is left open
        Item::Wrong
    } else {
        signs::sign(text, at)
    }
}

// What stands first at a place.
#[tactic(auto, using(crate::proofs::Parts::next_laws))]
pub fn next(text: &[u8], at: usize) -> Item
    requires { at ≤ length text.now }
    ensures { Tells text.now at (next_of (drop at text.now)) result }
{
    if text.len() <= at {
        return Item::Over;
    }
    match gaps::gap(text, at) {
        0 => word(text, at),
        n => Item::Apart(n),
    }
}
