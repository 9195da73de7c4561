// The numbers of the bindings text: a count, a width, a value, and the end of the line.
// What comes in: a text, a place and the greatest number that may stand there. What goes out: the place after it and the
// number, or the first byte at which no right text continues.
#![tactic(auto)]

ghost use Rattle.std.specs.Prelude.{◌≤◌, ◌≡◌, length, drop};
ghost use Rattle.language.specs.Limits.{limits};
ghost use Rattle.language.specs.Bindings.{digits_from, number_up_to};
ghost use Rattle.binding_numbers.specs.Steps.{grown_of, passed, ended, valued, number_told, Greatest, Reads};

// The place after a part of the text, and a number that was read.
#[derive(Clone, Copy)]
pub struct Went {
    pub next: usize,
    pub number: usize,
}

// The first byte at which no right text continues.
#[derive(Clone, Copy)]
pub struct Lost {
    pub at: usize,
}

// Where reading a part came to.
pub type Step = Result<Went, Lost>;

// The number with one digit more, where the byte may follow.
#[tactic(auto, using(crate::proofs::Numbers::grown_zero, crate::proofs::Numbers::grown_letter))]
fn grown(n: usize, b: u8, most: usize) -> Option<usize>
    requires { (n ≤ limits.typeNumber) × (most ≤ limits.typeNumber) }
    ensures { result ≡ grown_of most n b }
{
    if n == 0 || !spelling::is_digit(b) {
        return None;
    }
    let m = n * 10 + usize::from(b - b'0');
    (m <= most).then_some(m)
}

// The digits after the first.
fn digits(text: &[u8], from: usize, first: usize, most: usize) -> Step
    requires { (from ≤ length text.now) × (first ≤ most) × (most ≤ limits.typeNumber) }
    ensures { Reads text.now most (digits_from most first (drop from text.now)) (number_told text.now) result }
{
    let mut n = first;
    for at in from..text.len() {
        match grown(n, text[at], most) {
            Some(m) => n = m,
            None => return Ok(Went {
                next: at,
                number: n,
            }),
        }
    }
    Ok(Went {
        next: text.len(),
        number: n,
    })
}

fn number(text: &[u8], from: usize, most: usize) -> Step
    requires { (from ≤ length text.now) × Greatest most }
    ensures { Reads text.now most (number_up_to most (drop from text.now)) (number_told text.now) result }
{
    if from < text.len() && spelling::is_digit(text[from]) {
        digits(text, from + 1, usize::from(text[from] - b'0'), most)
    } else {
        Err(Lost { at: from })
    }
}

// The place after a byte that has to stand here.
fn past(text: &[u8], at: usize, b: u8) -> Result<usize, Lost>
    requires { at ≤ length text.now }
    ensures { result ≡ passed text.now b at }
{
    if at < text.len() && text[at] == b {
        Ok(at + 1)
    } else {
        Err(Lost { at })
    }
}

// A number and the end of its line.
pub fn number_line(text: &[u8], from: usize, most: usize) -> Step
    requires { (from ≤ length text.now) × Greatest most }
    ensures { Reads text.now most (ended most (drop from text.now)) (number_told text.now) result }
{
    let read = number(text, from, most)?;
    let next = past(text, read.next, b'\n')?;
    Ok(Went { next, ..read })
}

// The same after a blank.
pub fn blank_number(text: &[u8], from: usize, most: usize) -> Step
    requires { (from ≤ length text.now) × Greatest most }
    ensures { Reads text.now most (valued most (drop from text.now)) (number_told text.now) result }
{
    let at = past(text, from, b' ')?;
    number_line(text, at, most)
}
