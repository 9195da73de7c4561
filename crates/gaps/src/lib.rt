// Separators: blanks, tabs, ends of lines and comments.
// What comes in: a text and a place. What goes out: how long the separator there is, if one is there; the place after all
// separators.
#![tactic(auto)]

ghost use Rattle.std.specs.Prelude.{◌≡◌, ◌+◌, ◌<◌, ◌≤◌, length, drop, IsNone, IfSome};
ghost use Rattle.language.specs.Words.{blank, close as close_of};
ghost use Rattle.gaps.specs.Gaps.{GapAt, AfterGaps};

#[tactic(auto, unfolding(language::specs::Words::blank))]
fn is_blank(b: u8) -> bool
    ensures { result ≡ blank b }
{
    matches!(b, b' ' | b'\t' | b'\r' | b'\n')
}

// How many bytes there are up to the end of the first `*/`.
#[tactic(auto, using(crate::proofs::Gaps::close_laws))]
fn close(text: &[u8], at: usize) -> Option<usize>
    requires { at ≤ length text.now }
    ensures none { IsNone result → close_of (drop at text.now) ≡ 0 }
    ensures some { IfSome result (λ n. n ≡ close_of (drop at text.now)) }
    ensures inside { IfSome result (λ n. (0 < n) × (at + n ≤ length text.now)) }
{
    for i in at..text.len() {
        if spans::pair(text, i, b'*', b'/') {
            return Some(i + 2 - at);
        }
    }
    None
}

// How long the separator at a place is; 0 where none stands there, as the definition's `gap` has it.
#[tactic(auto, using(crate::proofs::Gaps::gap_laws))]
pub fn gap(text: &[u8], at: usize) -> usize
    requires { at ≤ length text.now }
    ensures { GapAt text.now at result }
{
    if text.len() <= at {
        0
    } else if is_blank(text[at]) {
        1
    } else if spans::pair(text, at, b'/', b'/') {
        spans::span(text, at, spans::Class::Line)
    } else if spans::pair(text, at, b'/', b'*') {
        // a comment that is left open is no separator
        close(text, at + 2).map_or(0, |n| n + 2)
    } else {
        0
    }
}

// The place after all separators.
#[tactic(auto, using(crate::proofs::Gaps::passing_laws))]
pub fn after_gaps(text: &[u8], at: usize) -> usize
    requires { at ≤ length text.now }
    ensures { AfterGaps text.now at result }
{
    let mut i = at;
    // each turn steps by a separator's length, so that no `for` fits
    loop {
        match gap(text, i) {
            0 => return i,
            n => i += n,
        }
    }
}
