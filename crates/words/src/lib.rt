// From the actor's bytes to the table of its words (rows 3 and 4 of document 01).
// What comes in: a text and a lent table. What goes out: the number of words, each four numbers in
// the table (kind, place, length, value), or the place of the first bad word.
#![tactic(auto)]

ghost use Rattle.std.specs.Prelude.{◌≡◌, [], ◌∷◌, ◌+◌, ◌*◌, ◌≤◌, ◌<◌, length};
ghost use Rattle.std.proofs.lemmas.List.Edits.{sets};
ghost use Rattle.language.specs.Limits.{limits};
ghost use Rattle.language.specs.Text.{earliest};
ghost use Rattle.words.specs.Found.{found_of, table_after, left_in, left_kind, earlier_of, place_told};

use signs::{Item, kinds};

// Why no words are read.
#[derive(Clone, Copy)]
pub enum Fault {
    // The place of the first bad word.
    Bad(u32),
    // A text over its limit, or a table with less than four numbers for each byte: nothing is read.
    NoRoom,
}

const BYTES: usize = language::Actor::BYTES as usize;

// Stores word i.
fn put(table: &mut [u32], i: usize, kind: u32, at: usize, n: usize, v: u32)
    requires { (4 * i + 3 < length table.old) × (at ≤ limits.actor) × (n ≤ limits.actor) }
    ensures { table.new ≡ sets table.old (4 * i) (kind ∷ at ∷ n ∷ v ∷ []) }
{
    let p = 4 * i;
    table[p] = kind;
    table[p + 1] = at as u32;
    table[p + 2] = n as u32;
    table[p + 3] = v;
}

// Reads all words: how many they are. Where a word is bad the table holds the words before it.
pub fn words(text: &[u8], table: &mut [u32]) -> Result<u32, Fault>
    ensures answer { result ≡ found_of text.now table.old }
    ensures table { table.new ≡ table_after text.now table.old }
{
    if BYTES < text.len() {
        return Err(Fault::NoRoom);
    }
    if table.len() / 4 < text.len() {
        return Err(Fault::NoRoom);
    }
    let mut at = 0;
    let mut i = 0;
    // no `for`: a turn goes on by the length of what it read
    while at < text.len() {
        match first_word::next(text, at) {
            Item::Over => return Ok(i as u32),
            Item::Wrong => return Err(Fault::Bad(at as u32)),
            Item::Apart(n) => at += n,
            Item::Word(kind, n, v) => {
                put(table, i, kind, at, n, v);
                i += 1;
                at += n;
            }
        }
    }
    Ok(i as u32)
}

// The place of the earliest of the first n words that is of row 4.
pub fn left_out(table: &[u32], n: usize) -> Option<u32>
    requires { 4 * n ≤ length table.now }
    ensures { result ≡ place_told (earliest (left_in table.now 0 n)) }
{
    let mut first = None;
    for i in (0..n).rev() {
        if is_left_out(table[4 * i]) {
            first = earlier(table[4 * i + 1], first);
        }
    }
    first
}

fn is_left_out(kind: u32) -> bool
    ensures { result ≡ left_kind kind }
{
    matches!(kind, kinds::FOREACH..=kinds::HASH)
}

// The earlier of a place and another, if there is another.
pub fn earlier(at: u32, other: Option<u32>) -> Option<u32>
    ensures { result ≡ earlier_of at other }
{
    Some(match other {
        Some(p) => at.min(p),
        None => at,
    })
}
