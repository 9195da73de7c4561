// What a name is made of, and the words that are spelled like names but are none.
// What comes in: a text and a part of it, by its place and length. What goes out: whether the part
// is a name, and which of the fixed words it is.
#![tactic(auto)]

ghost use Rattle.std.specs.Prelude.{◌≡◌};
ghost use Rattle.language.specs.Text.{index, same};
ghost use Rattle.language.specs.Words.{digit, plain_byte, name_byte, some_of, good_name, spellings};
ghost use Rattle.spelling.specs.Fixed.{fixed_names};

const NAME: usize = language::Actor::NAME as usize;

// How many fixed words are spelled like names; the keywords come first.
pub const FIXED: usize = 21;

const KEYWORDS: usize = 18;

// The fixed words that are spelled like names.
const WORDS: [&[u8]; FIXED] = [
    b"input",
    b"output",
    b"reg",
    b"ff",
    b"and",
    b"or",
    b"let",
    b"val",
    b"in",
    b"end",
    b"case",
    b"if",
    b"then",
    b"else",
    b"max",
    b"log",
    b"ceil",
    b"floor",
    b"_",
    b"foreach",
    b"instruction",
];

#[tactic(auto, unfolding(language::specs::Words::digit))]
pub fn is_digit(b: u8) -> bool
    ensures { result ≡ digit b }
{
    b.is_ascii_digit()
}

// A letter or a digit.
pub fn is_plain(b: u8) -> bool
    ensures { result ≡ plain_byte b }
{
    b.is_ascii_alphanumeric()
}

// A letter, a digit or an underscore.
#[tactic(auto, unfolding(language::specs::Words::name_byte))]
pub fn is_name_byte(b: u8) -> bool
    ensures { result ≡ name_byte b }
{
    is_plain(b) || b == b'_'
}

// Whether two parts are the same bytes, in the definition's words: callers cite `same` and not `==`.
pub fn same_bytes(a: &[u8], b: &[u8]) -> bool
    ensures { result ≡ same a.now b.now }
{
    a == b
}

// Which fixed word the run is, in the order of the list; `FIXED` where it is none, as the definition's `index` has it.
// Kept apart, so that `good_name` after it looks the same run up no second time.
#[inline(never)]
pub fn spelled(run: &[u8]) -> usize
    ensures { result ≡ index (spellings fixed_names) run.now }
{
    WORDS
        .iter()
        .position(|word| same_bytes(word, run))
        .unwrap_or(FIXED)
}

fn some_plain(run: &[u8]) -> bool
    ensures { result ≡ some_of plain_byte run.now }
{
    run.iter().any(|&b| is_plain(b))
}

// Whether a run is a name.
#[tactic(auto, using(crate::proofs::Laws::good_name_is))]
pub fn good_name(run: &[u8]) -> bool
    ensures { result ≡ good_name run.now }
{
    run.len() <= NAME && some_plain(run) && KEYWORDS <= spelled(run)
}
