// The kinds of words, and the signs: operators and punctuation.
// What comes in: a text and a place. What goes out: the sign that stands there, the longest first, as what stands first at a
// place.
#![tactic(auto)]

pub mod kinds;

ghost use Rattle.std.specs.Prelude.{◌≡◌, ◌<◌, length, drop};
ghost use Rattle.language.specs.Words.{begins, sign_next};
ghost use Rattle.signs.specs.Signs.{sign_bytes};
ghost use Rattle.signs.specs.Tells.{Tells};

// What stands first at a place.
#[derive(Clone, Copy)]
pub enum Item {
    Over,
    // A separator of so many bytes.
    Apart(usize),
    // A word: its kind, its length, a plain number's value.
    Word(u32, usize, u32),
    Wrong,
}

// The signs as the definition orders them, the longer ones first: the first byte, the second, if there is one, and the kind; `^~` is `~^`.
const SIGNS: [(u8, Option<u8>, u32); 40] = [
    (b'=', Some(b'>'), kinds::ARROW),
    (b'=', Some(b'='), kinds::EQUAL),
    (b'!', Some(b'='), kinds::UNEQUAL),
    (b'<', Some(b'<'), kinds::LEFT),
    (b'<', Some(b'='), kinds::AT_MOST),
    (b'>', Some(b'>'), kinds::RIGHT),
    (b'>', Some(b'='), kinds::AT_LEAST),
    (b'&', Some(b'&'), kinds::BOTH),
    (b'|', Some(b'|'), kinds::EITHER),
    (b'~', Some(b'&'), kinds::NOT_AND),
    (b'~', Some(b'|'), kinds::NOT_OR),
    (b'~', Some(b'^'), kinds::NOT_XOR),
    (b'^', Some(b'~'), kinds::NOT_XOR),
    (b'(', None, kinds::OPEN),
    (b')', None, kinds::CLOSE),
    (b'{', None, kinds::BRACE),
    (b'}', None, kinds::UNBRACE),
    (b'[', None, kinds::BRACKET),
    (b']', None, kinds::UNBRACKET),
    (b',', None, kinds::COMMA),
    (b';', None, kinds::SEMICOLON),
    (b':', None, kinds::COLON),
    (b'?', None, kinds::ASK),
    (b'.', None, kinds::DOT),
    (b'=', None, kinds::EQUALS),
    (b'<', None, kinds::LESS),
    (b'>', None, kinds::GREATER),
    (b'!', None, kinds::NOT),
    (b'~', None, kinds::INVERT),
    (b'&', None, kinds::AMPERSAND),
    (b'|', None, kinds::BAR),
    (b'^', None, kinds::CARET),
    (b'+', None, kinds::PLUS),
    (b'-', None, kinds::MINUS),
    (b'*', None, kinds::STAR),
    (b'/', None, kinds::SLASH),
    (b'%', None, kinds::PERCENT),
    (b'@', None, kinds::AT_SIGN),
    (b'$', None, kinds::DOLLAR),
    (b'#', None, kinds::HASH),
];

// Whether a sign stands at a place.
#[tactic(auto, using(std::proofs::lemmas::Bool::Decides::nat_tests, crate::proofs::Signs::begins_one), unfolding(crate::specs::Signs::sign_bytes))]
fn stands(a: u8, b: Option<u8>, text: &[u8], at: usize) -> bool
    requires { at < length text.now }
    ensures { result ≡ begins (sign_bytes a b) (drop at text.now) }
{
    match b {
        None => text[at] == a,
        Some(b) => spans::pair(text, at, a, b),
    }
}

// An operator or punctuation, the longest first.
pub fn sign(text: &[u8], at: usize) -> Item
    requires { at < length text.now }
    ensures { Tells text.now at (sign_next (drop at text.now)) result }
{
    match SIGNS.iter().find(|&&(a, b, _)| stands(a, b, text, at)) {
        Some(&(_, Some(_), kind)) => Item::Word(kind, 2, 0),
        Some(&(_, None, kind)) => Item::Word(kind, 1, 0),
        None => Item::Wrong,
    }
}
