// The vectors as text: five numbers on a line, each ended by one byte.
ghost use Rattle.std.specs.Prelude.{◌≡◌, ◌+◌, ◌≤◌, min, length};

#[derive(Clone, Copy)]
pub struct Read {
    pub value: u64,
    pub next: usize,
}

#[derive(Clone, Copy)]
pub struct Asked {
    pub what: u64,
    pub m: u32,
    pub n: u32,
    pub a: u64,
    pub b: u64,
    pub next: usize,
}

// A number of the vectors as a width; one that is none stands as the greatest.
pub fn width(x: u64) -> u32
    ensures { result ≡ min x 4294967295 }
{
    u32::try_from(x).unwrap_or(u32::MAX)
}

// One digit more, where there is room for it.
fn with_digit(x: u64, digit: u8) -> u64 {
    x.checked_mul(10)
        .and_then(|tens| tens.checked_add(u64::from(digit % 10)))
        .unwrap_or(x)
}

// The number at a place, and the place past the byte that ends it.
fn number(s: &[u8], at: usize) -> Read
    ensures { (at ≤ result.next) × (min (at + 1) (length s.now) ≤ result.next) }
{
    let mut value = 0;
    for i in at..s.len() {
        let byte = s[i];
        if byte < b'0' {
            return Read { value, next: i + 1 };
        }
        value = with_digit(value, byte - b'0');
    }
    Read {
        value,
        next: at.max(s.len()),
    }
}

// The line at a place.
pub fn line(s: &[u8], at: usize) -> Asked
    ensures { (at ≤ result.next) × (min (at + 1) (length s.now) ≤ result.next) }
{
    let what = number(s, at);
    let m = number(s, what.next);
    let n = number(s, m.next);
    let a = number(s, n.next);
    let b = number(s, a.next);
    Asked {
        what: what.value,
        m: width(m.value),
        n: width(n.value),
        a: a.value,
        b: b.value,
        next: b.next,
    }
}
