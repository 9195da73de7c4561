// Bytes of a text at a place: how many of a class stand there, two bytes, a part, a name.
// What comes in: a text and a place. What goes out: how many bytes of the class, whether the two stand there, the part;
// what a letter or digit is worth.
#![tactic(auto)]

ghost use Rattle.std.specs.Prelude.{◌≡◌, true, [], ◌∷◌, ◌+◌, ◌≤◌, length, take, drop};
ghost use Rattle.language.specs.Words.{begins, plain_byte, digit_of, digit_in, span as span_of, name_byte};
ghost use Rattle.spans.specs.Spans.{test_of};

// The classes of bytes that a span runs over: what stands in a line, what stands in a name, the digits of a base.
#[derive(Clone, Copy)]
pub enum Class {
    Line,
    Name,
    Digits(usize),
}

impl Class {
    // Whether a byte is of the class.
    #[tactic(auto, unfolding(crate::specs::Spans::test_of))]
    fn has(self, b: u8) -> bool
        ensures { result ≡ test_of self b }
    {
        match self {
            Class::Line => b != b'\n',
            Class::Name => spelling::is_name_byte(b),
            Class::Digits(base) => digit_in(base, b),
        }
    }
}

// What a letter or digit is worth.
#[tactic(auto, using(std::proofs::lemmas::Bool::Decides::nat_tests), unfolding(language::specs::Words::plain_byte, language::specs::Words::letter, language::specs::Words::digit, language::specs::Words::digit_of))]
pub fn digit_of(b: u8) -> usize
    requires { plain_byte b ≡ true }
    ensures { (result ≡ digit_of b) × (result ≤ 255) }
{
    let worth = match b {
        ..=b'9' => b - b'0',
        ..=b'Z' => b - b'A' + 10,
        _ => b - b'a' + 10,
    };
    usize::from(worth)
}

#[tactic(auto, unfolding(language::specs::Words::digit_in))]
pub fn digit_in(base: usize, b: u8) -> bool
    ensures { result ≡ digit_in base b }
{
    spelling::is_plain(b) && digit_of(b) < base
}

// How many bytes of a class stand from a place on.
pub fn span(text: &[u8], at: usize, class: Class) -> usize
    requires { at ≤ length text.now }
    ensures { (at + result ≤ length text.now) × (result ≡ length (span_of (test_of class) (drop at text.now))) }
{
    text[at..].iter().take_while(|&&b| class.has(b)).count()
}

// Whether two bytes stand at a place.
#[tactic(auto, using(crate::proofs::Spans::pair_is))]
pub fn pair(text: &[u8], at: usize, a: u8, b: u8) -> bool
    requires { at ≤ length text.now }
    ensures { result ≡ begins (a ∷ b ∷ []) (drop at text.now) }
{
    2 <= text.len() - at && text[at] == a && text[at + 1] == b
}

// At most so many bytes from a place on.
pub fn part(text: &[u8], at: usize, long: usize) -> &[u8]
    ensures { result.now ≡ take long (drop at text.now) }
{
    let rest = &text[at.min(text.len())..];
    &rest[..long.min(rest.len())]
}

// How many name bytes stand from a place on.
#[tactic(auto, using(crate::proofs::Spans::span_over), unfolding(crate::specs::Spans::test_of))]
pub fn run(text: &[u8], at: usize) -> usize
    ensures { result ≡ length (span_of name_byte (drop at text.now)) }
{
    if at < text.len() {
        span(text, at, Class::Name)
    } else {
        0
    }
}
