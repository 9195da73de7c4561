// What the readers look at: a word's kind and numbers, marks of names, operators.
ghost use Rattle.std.specs.Prelude.{◌≡◌, ◌<◌, ◌≤◌, EachIndex, slice_index};
ghost use Rattle.readers.specs.Marks.{place_at, long_at, value_at, is_mark, unary_of, binary_of, is_memory, the_p, the_type, marked, figure_of};
ghost use Rattle.readers.specs.Meets.{Inside, Sum, Within, Kind, Level, Expects, Ends};

use crate::{COUNT, IS_MEMORY, IS_P, IS_TYPE, LOOSEST, Misfit, Table};
use signs::kinds;
use tape::{MINUS, PLUS};

// The kind of the word at an index, and 0 past the end.
pub fn kind(words: &Table, at: usize) -> u32
    requires { Inside words.now at }
    ensures { Kind words.now at result }
{
    if at < words[COUNT] as usize {
        words[4 * at]
    } else {
        0
    }
}

pub fn place(words: &Table, at: usize) -> u32
    requires { Within words.now at }
    ensures { result ≡ place_at words.now at }
{
    words[4 * at + 1]
}

pub fn long(words: &Table, at: usize) -> u32
    requires { Within words.now at }
    ensures { result ≡ long_at words.now at }
{
    words[4 * at + 2]
}

pub fn value(words: &Table, at: usize) -> u32
    requires { Within words.now at }
    ensures { result ≡ value_at words.now at }
{
    words[4 * at + 3]
}

// Whether a name is among the memories.
pub fn memory(words: &Table, at: usize) -> bool
    requires { Within words.now at }
    ensures { result ≡ is_memory (value_at words.now at) }
{
    value(words, at) >= IS_MEMORY
}

// Whether a name with a mark stands at an index, among the memories or not.
fn marked(words: &Table, at: usize, mark: u32) -> bool
    requires inside { Inside words.now at }
    requires small { mark < 4 }
    ensures { result ≡ marked mark words.now at }
{
    kind(words, at) == kinds::NAME
        && (value(words, at) == mark || value(words, at) == mark + IS_MEMORY)
}

// Whether the name `type` stands at an index.
pub fn the_type(words: &Table, at: usize) -> bool
    requires { Inside words.now at }
    ensures { result ≡ the_type words.now at }
{
    marked(words, at, IS_TYPE)
}

// Whether the name `p` stands at an index.
pub fn the_p(words: &Table, at: usize) -> bool
    requires { Inside words.now at }
    ensures { result ≡ the_p words.now at }
{
    marked(words, at, IS_P)
}

// The operation of `+` and of `-` in a type, and 0 for any other word.
pub fn sum(k: u32) -> u32
    ensures { Sum k result }
{
    match k {
        kinds::PLUS => PLUS,
        kinds::MINUS => MINUS,
        _ => 0,
    }
}

// The index after a word of the kind kw.
pub fn expect(words: &Table, at: usize, kw: u32) -> Result<usize, Misfit>
    requires { Inside words.now at }
    ensures { Expects words.now at kw result }
{
    if kind(words, at) == kw {
        Ok(at + 1)
    } else {
        Err(Misfit { at })
    }
}

// The kinds of words, and 0 where there is no word.
const KINDS: usize = kinds::HASH as usize + 1;

// What a table has for a kind of word, counted from the byte `base`; `past` where there is no such kind.
fn figure(table: &[u8; KINDS], base: u8, past: u32, k: u32) -> u32
    requires { EachIndex table.now (λ i. base ≤ slice_index table.now i) }
    ensures { result ≡ figure_of table.now base past k }
{
    let i = k as usize;
    if i < KINDS {
        u32::from(table[i] - base)
    } else {
        past
    }
}

// The level of each kind of word, a figure each: the tightest operators have 0, and what is no operator the loosest.
const LEVELS: [u8; KINDS] = *b"99999999999999999999999994423237856599999999999933995651100099999";

pub fn level(k: u32) -> u32
    ensures { Level k result }
{
    figure(&LEVELS, b'0', LOOSEST, k)
}

// 1 at the operators that may stand before their operand: ~& ~| ~^ ! ~ & | ^ +
const MARKS: [u8; KINDS] = *b"00000000000000000000000000000000011100000000000000111111000000000";

pub fn prefix(k: u32) -> bool
    ensures { result ≡ is_mark k }
{
    figure(&MARKS, b'0', 0, k) == 1
}

// The number in the plan of each operator before its operand, a figure each; 0 where the kind is none's.
const UNARIES: [u8; KINDS] = *b"00000000000000000000000000000000046800000000000000203571000000000";

pub fn unary_number(k: u32) -> u32
    ensures { result ≡ unary_of k }
{
    figure(&UNARIES, b'0', 0, k)
}

// The same of each operator between two operands, a letter each: `a` is 0.
const BINARIES: [u8; KINDS] = *b"aaaaaaaaaaaaaaaaaaaaaaaaalmfigktuosqaaaaaaaaaaaahjaanrpdeabcaaaaa";

pub fn binary_number(k: u32) -> u32
    ensures { result ≡ binary_of k }
{
    figure(&BINARIES, b'a', 0, k)
}

// Whether an arm's expression ends at a word: a `|`, then a number and `=>`, or `_`.
pub fn arm_ends(words: &Table, at: usize, arm: bool) -> bool
    requires { Inside words.now at }
    ensures { Ends words.now at arm result }
{
    arm && kind(words, at) == kinds::BAR
        && match kind(words, at + 1) {
            kinds::NUMBER => kind(words, at + 2) == kinds::ARROW,
            label => label == kinds::DEFAULT,
        }
}
