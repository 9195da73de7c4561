// The types and whole expressions of a tape: going back from the item that holds one finds its words and its first word.
// What comes in: the tape up to an item, the table of the text's words, and limits.
// What goes out: the place of the first word too many, by the table of the words.
#![tactic(auto)]

ghost use Rattle.std.specs.Prelude.{◌≡◌, ◌+◌, ◌-◌, ◌*◌, ◌≤◌, ◌<◌, length, get_or, drop};
ghost use Rattle.language.specs.Text.{earliest};
ghost use Rattle.words.specs.Found.{place_told};
ghost use Rattle.part_lengths.specs.Parts.{lead_in, over_of, both_of, IsWhole, places_in, after_in, long_in, held_in, before, first_of, length_of};

// A type or an expression, gone back over so far: how many parts are still wanted, the words, and the place of the
// first one, if that is found.
#[derive(Clone, Copy)]
pub struct Part {
    pub wanted: usize,
    pub words: usize,
    pub start: Option<u32>,
}

// A whole type or expression: the item that it starts at, its words, and the place of the first one.
#[derive(Clone, Copy)]
struct Length {
    at: usize,
    words: usize,
    start: u32,
}

// The operations of the tape, and 0.
const OPERATIONS: usize = tape::ACTOR as usize + 1;

// By operation, a figure each: how many parts before it an item holds; how many words are its own; 1 where the first
// word of the part is its own. A memory's size stands over its type, and has none of its words.
const HOLDS: [u8; OPERATIONS] = *b"000022111121011101012311212331221000000000000100";

const OWN: [u8; OPERATIONS] = *b"011311333312121213132322111232233000000000000000";

const LEADS: [u8; OPERATIONS] = *b"011100111101110011110011010011111000000000000000";

// The figure of an operation in such a table; 0 past its end.
fn figure(table: &[u8], op: u32) -> usize
    ensures { result ≡ get_or table.now op 0 - 48 }
{
    match table.get(op as usize) {
        Some(digit) => digit.saturating_sub(b'0') as usize,
        None => 0,
    }
}

// Whether an item has the first word of the part: the first that has one where a single part is still wanted.
#[tactic(auto, using(crate::proofs::Figures::leads_one), unfolding(crate::specs::Parts::lead_in, crate::specs::Parts::leads_table, language::specs::Words::bytes))]
fn lead(part: Part, op: u32) -> bool
    ensures { result ≡ lead_in part op }
{
    part.start.is_none() && part.wanted == 1 && figure(&LEADS, op) == 1
}

// One item further back.
fn over(part: Part, op: u32, place: u32) -> Part
    requires { (0 < part.wanted) × (part.wanted + 2 ≤ 18446744073709551615) × (part.words + 3 ≤ 18446744073709551615) }
    ensures { result ≡ over_of part op place }
{
    Part {
        wanted: part.wanted - 1 + figure(&HOLDS, op),
        words: part.words + figure(&OWN, op),
        start: if lead(part, op) {
            Some(place)
        } else {
            part.start
        },
    }
}

// The part that ends before an item.
fn whole(tape: &[u32], end: usize) -> Length
    requires { 3 * end ≤ length tape.now }
    ensures { IsWhole tape.now end result }
{
    let mut part = Part {
        wanted: 1,
        words: 0,
        start: None,
    };
    for i in (0..end).rev() {
        if part.wanted == 0 {
            return started(part, i + 1);
        }
        part = over(part, tape[3 * i], tape[3 * i + 1]);
    }
    started(part, 0)
}

// A part that starts at an item, where a part without a word of its own starts at place 0.
fn started(part: Part, at: usize) -> Length
    ensures { result ≡ length_of part at }
{
    Length {
        at,
        words: part.words,
        start: part.start.unwrap_or(0),
    }
}

// The place of the word that comes so many words after the one at a place.
fn word_after(table: &[u32], many: usize, place: u32, more: usize) -> Option<u32>
    requires { 4 * many ≤ length table.now }
    ensures { result ≡ place_told (earliest (after_in (places_in table.now 0 many) place more)) }
{
    for i in 0..many {
        if table[4 * i + 1] == place {
            return nth_place(table, many, i, more);
        }
    }
    None
}

// The place of the word so many words after word i, if there is one.
fn nth_place(table: &[u32], many: usize, i: usize, more: usize) -> Option<u32>
    requires { (4 * many ≤ length table.now) × (i < many) }
    ensures { result ≡ place_told (earliest (first_of (drop more (places_in table.now i (many - i))))) }
{
    if many - i <= more {
        return None;
    }
    Some(table[4 * (i + more) + 1])
}

// The first word too many of a part, where it has any.
fn too_long(table: &[u32], many: usize, part: Length, limit: u32) -> Option<u32>
    requires { 4 * many ≤ length table.now }
    ensures { result ≡ place_told (earliest (long_in (places_in table.now 0 many) limit part.words part.start)) }
{
    let most = limit as usize;
    if part.words <= most {
        return None;
    }
    word_after(table, many, part.start, most)
}

// The earlier of two places, if there is one.
pub fn both(a: Option<u32>, b: Option<u32>) -> Option<u32>
    ensures { result ≡ both_of a b }
{
    match a {
        Some(p) => words::earlier(p, b),
        None => b,
    }
}

// The faults of the parts before an item: the last one by a limit, the one before it by another, if they have one.
pub fn held(
    table: &[u32],
    many: usize,
    tape: &[u32],
    end: usize,
    last: Option<u32>,
    other: Option<u32>,
) -> Option<u32>
    requires { (4 * many ≤ length table.now) × (3 * end ≤ length tape.now) }
    ensures { result ≡ place_told (earliest (held_in (places_in table.now 0 many) (before tape.now end) last other)) }
{
    let limit = last?;
    let part = whole(tape, end);
    let first = too_long(table, many, part, limit);
    match other {
        Some(limit) => both(first, too_long(table, many, whole(tape, part.at), limit)),
        None => first,
    }
}
