// Bytes and numbers as they are written.
ghost use Rattle.std.specs.Prelude.{[], ◌∷◌, ◌+◌, ◌≤◌, length};
ghost use Rattle.figures.specs.Written.{number_bytes, Wrote};
ghost use Rattle.language.specs.Worked.{decimal};

use itoa::Buffer;

pub fn put(out: &mut [u8], at: usize, b: u8) -> usize
    requires { at + 1 ≤ length out.old }
    ensures { Wrote out.old at (b ∷ []) 1 result out.new }
{
    out[at] = b;
    at + 1
}

// Some bytes.
pub fn text(out: &mut [u8], at: usize, text: &[u8]) -> usize
    requires { at + length text.now ≤ length out.old }
    ensures { Wrote out.old at text.now (length text.now) result out.new }
{
    let end = at + text.len();
    out[at..end].copy_from_slice(text);
    end
}

// A number in decimal.
pub fn number(out: &mut [u8], at: usize, n: u64) -> usize
    requires { at + 20 ≤ length out.old }
    ensures { Wrote out.old at (decimal n) 20 result out.new }
{
    let mut buffer = Buffer::new();
    text(out, at, buffer.format(n).as_bytes())
}

// A blank and a number.
pub fn next_number(out: &mut [u8], at: usize, n: u64) -> usize
    requires { at + number_bytes ≤ length out.old }
    ensures { Wrote out.old at (32 ∷ decimal n) number_bytes result out.new }
{
    let k = put(out, at, 32);
    number(out, k, n)
}
