// The names of the bindings text: each is one that no line before it in its section has.
// What comes in: a text, a table of the lines before and a place. What goes out: the place after the name and how many bytes
// it has, or the first byte at which no right text continues.
#![tactic(auto)]

ghost use Rattle.std.specs.Prelude.{◌≡◌, ◌+◌, take, drop};
ghost use Rattle.language.specs.Text.{among};
ghost use Rattle.language.specs.Bindings.{may_end};
ghost use Rattle.binding_names.specs.Names.{names_before, goes_on, ReadsName, Lent};

use binding_numbers::{Lost, Step, Went};

const NAME: usize = language::Actor::NAME as usize;

// Whether a run is the name of one of the first k lines.
fn taken(text: &[u8], table: &[u32], k: usize, run: &[u8]) -> bool
    requires { Lent text.now table.now k 0 }
    ensures { result ≡ among (names_before text.now table.now k) run.now }
{
    (0..k).any(|i| {
        let at = table[3 * i] as usize;
        let end = at + table[3 * i + 1] as usize;
        &text[at..end] == run
    })
}

// Whether the n bytes are a name that no line before has.
fn may_end(text: &[u8], table: &[u32], k: usize, from: usize, n: usize) -> bool
    requires { Lent text.now table.now k (from + n) }
    ensures { result ≡ may_end (names_before text.now table.now k) (take n (drop from text.now)) }
{
    let run = &text[from..from + n];
    spelling::good_name(run) && !taken(text, table, k, run)
}

// Whether a name of n bytes may have the next byte too.
#[tactic(auto, using(crate::proofs::Names::goes_on_short))]
fn goes_on(text: &[u8], table: &[u32], k: usize, from: usize, n: usize) -> bool
    requires { Lent text.now table.now k (from + n + 1) }
    ensures { result ≡ goes_on text.now (names_before text.now table.now k) from n }
{
    spelling::is_name_byte(text[from + n])
        && (n + 1 < NAME || n + 1 == NAME && may_end(text, table, k, from, n + 1))
}

pub fn name(text: &[u8], table: &[u32], k: usize, from: usize) -> Step
    requires { Lent text.now table.now k from }
    ensures { ReadsName text.now (names_before text.now table.now k) from result }
{
    if from < text.len() && spelling::is_digit(text[from]) {
        return Err(Lost { at: from });
    }
    for n in 0..text.len() - from {
        if !goes_on(text, table, k, from, n) {
            let at = from + n;
            let ends = may_end(text, table, k, from, n);
            return if ends {
                Ok(Went {
                    next: at,
                    number: n,
                })
            } else {
                Err(Lost { at })
            };
        }
    }
    Err(Lost { at: text.len() })
}
