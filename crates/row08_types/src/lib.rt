// Row 8 of document 01: the rules of types, read off an actor's tape.
// What comes in: the tape that holds the actor. What goes out: the earliest place of a number over its limit, a port's
// type after `-`, a `max` that may not stand there, or a log in a log or third among those that stand together.
#![tactic(auto)]

ghost use Rattle.std.specs.Prelude.{◌≡◌, List, ℕ, ◌+◌, ◌*◌, ◌-◌, ◌/◌, ◌≤◌, ◌<◌, length, take, drop};
ghost use Rattle.std.specs.Prelude.{min, map};
ghost use Rattle.std.specs.List.{reduce, filter, range_with_len};
ghost use Rattle.tape.specs.Walk.{place_at};
ghost use Rattle.language.specs.Text.{earliest};
ghost use Rattle.language.specs.Words.{Word};
ghost use Rattle.language.specs.Tree.{Actor};
ghost use Rattle.language.specs.Parts.{each, actor_items, types};
ghost use Rattle.language.specs.Types.{type_faults};
ghost use Rattle.words.specs.Found.{place_told};
ghost use Rattle.tape.specs.Row.{Tells};
ghost use Rattle.row08_types.specs.Walk.{outer_of, outward_of, waiting_of, coming_of, seen_from, bare, counted_of, is_done, logs_over, passing, nodes_before, log_faulty, faulty};

use tape::{Node, node_of};

// The greatest number in a type.
const LIMIT: u32 = language::Type::NUMBER;

// How many logs may stand together.
const TOGETHER: usize = 2;

// What is known of the place of a type from the items after it.
#[derive(Clone, Copy)]
struct Around {
    // No `max` may stand there.
    low: bool,
    // It is after a `-`.
    after: bool,
    // It is in a log, with no `ceil` or `floor` between.
    in_log: bool,
    // So many types before it stand together with it, with no `ceil` or `floor` between.
    lefts: usize,
    // It is in no `ceil` or `floor`.
    near: bool,
}

// The logs before an item, from the last one back.
#[derive(Clone, Copy)]
struct Count {
    // So many types to pass over first.
    aside: usize,
    // So many types to count in.
    need: usize,
    logs: usize,
}

// What the item that holds a type says of its place; where it joins two, the type is the second.
#[tactic(auto, unfolding(crate::specs::Walk::outer_of, tape::specs::Tape::one_if))]
fn outer(s: Around, k: Node) -> Around
    requires { s.lefts < 18446744073709551615 }
    ensures { result ≡ outer_of s k }
{
    let lefts = s.lefts + usize::from(s.near);
    match k {
        Node::Join => Around { lefts, ..s },
        Node::Minus => Around {
            low: true,
            after: true,
            lefts,
            ..s
        },
        Node::Log => Around {
            low: true,
            in_log: s.in_log || s.near,
            ..s
        },
        Node::Whole => Around {
            low: true,
            near: false,
            ..s
        },
        Node::Most => Around { low: true, ..s },
        _ => s,
    }
}

// How many types wait after one more item, read forward; read back, how many are still to come.
#[tactic(auto, unfolding(crate::specs::Walk::waiting_of))]
fn waiting(n: usize, k: Node) -> usize
    requires { n < 18446744073709551615 }
    ensures { result ≡ waiting_of n k }
{
    match k {
        Node::Number | Node::Name | Node::Port => n + 1,
        Node::Join | Node::Minus => n.saturating_sub(1),
        _ => n,
    }
}

#[tactic(auto, unfolding(crate::specs::Walk::coming_of))]
fn coming(n: usize, k: Node) -> usize
    requires { n < 18446744073709551615 }
    ensures { result ≡ coming_of n k }
{
    match k {
        Node::Number | Node::Name | Node::Port => n.saturating_sub(1),
        Node::Join | Node::Minus => n + 1,
        _ => n,
    }
}

// What one more item after a type says of its place, where so many types between them wait.
#[tactic(auto, using(crate::proofs::Turns::zero_is, crate::proofs::Turns::zero_not), unfolding(crate::specs::Walk::outward_of))]
fn outward(n: usize, s: Around, k: Node) -> Around
    requires { s.lefts < 18446744073709551615 }
    ensures { result ≡ outward_of n s k }
{
    if n == 0 { outer(s, k) } else { s }
}

// What the items from one on say of the place of the type before them.
fn seen_around(tape: &[u32], n: usize, from: usize) -> Around
    requires { (n ≤ length tape.now) × (from ≤ n / 3) }
    ensures { (result ≡ seen_from 0 bare (drop (3 * from) (take n tape.now))) × (result.lefts ≤ n / 3) }
{
    let mut s = Around {
        low: false,
        after: false,
        in_log: false,
        lefts: 0,
        near: true,
    };
    let mut waits = 0;
    for i in from..n / 3 {
        let k = node_of(tape[3 * i]);
        if matches!(k, Node::Other) {
            return s;
        }
        s = outward(waits, s, k);
        waits = waiting(waits, k);
    }
    s
}

// The count after one more item, read back.
fn counted(s: Count, k: Node) -> Count
    requires { s.aside + s.need + s.logs < 18446744073709551615 }
    ensures { (result ≡ counted_of s k) × (result.aside + result.need + result.logs ≤ s.aside + s.need + s.logs + 1) }
{
    if 0 < s.aside {
        return Count {
            aside: coming(s.aside, k),
            ..s
        };
    }
    match k {
        Node::Log => Count {
            logs: s.logs + 1,
            ..s
        },
        Node::Whole => Count {
            aside: 1,
            need: s.need.saturating_sub(1),
            ..s
        },
        _ => Count {
            need: coming(s.need, k),
            ..s
        },
    }
}

// Whether no type is to come.
#[tactic(auto, using(crate::proofs::Turns::zero_is, crate::proofs::Turns::zero_not, crate::proofs::Turns::zero_eqb), unfolding(crate::specs::Walk::is_done))]
fn is_done(s: Count) -> bool
    ensures { result ≡ is_done s }
{
    s.aside == 0 && s.need == 0
}

// How many logs stand in so many types before the log at an item; what that log holds is passed over.
fn logs_before(tape: &[u32], at: usize, lefts: usize) -> usize
    requires { (3 * at ≤ length tape.now) × (3 * lefts ≤ length tape.now) }
    ensures { result ≡ logs_over (passing lefts) (nodes_before tape.now at) }
{
    let mut s = Count {
        aside: 1,
        need: lefts,
        logs: 0,
    };
    for i in (0..at).rev() {
        if is_done(s) {
            return s.logs;
        }
        s = counted(s, node_of(tape[3 * i]));
    }
    s.logs
}

// Whether the log at an item is in a log, or third or later of those that stand together.
fn log_at_fault(tape: &[u32], n: usize, i: usize) -> bool
    requires { (n ≤ length tape.now) × (i < n / 3) }
    ensures { result ≡ log_faulty (nodes_before tape.now i) (seen_from 0 bare (drop (3 * (i + 1)) (take n tape.now))) }
{
    let s = seen_around(tape, n, i + 1);
    s.in_log || TOGETHER <= logs_before(tape, i, s.lefts)
}

// Whether an item breaks a rule.
fn at_fault(tape: &[u32], n: usize, i: usize) -> bool
    requires { (n ≤ length tape.now) × (i < n / 3) }
    ensures { result ≡ faulty tape.now n i }
{
    match node_of(tape[3 * i]) {
        Node::Number => LIMIT < tape[3 * i + 2],
        Node::Port => seen_around(tape, n, i + 1).after,
        Node::Most => seen_around(tape, n, i + 1).low,
        Node::Log => log_at_fault(tape, n, i),
        _ => false,
    }
}

// The earliest place of an item that breaks a rule.
fn walk(tape: &[u32], n: usize) -> Option<u32>
    requires { n ≤ length tape.now }
    ensures { result ≡ reduce min (map (place_at tape.now) (filter (faulty tape.now n) (range_with_len 0 (n / 3)))) }
{
    (0..n / 3)
        .filter(|&i| at_fault(tape, n, i))
        .map(|i| tape[3 * i + 1])
        .min()
}

// The earliest place of row 8, where the tape holds the actor of a text.
pub fn fault(tape: &[u32], n: usize) -> Option<u32>
    requires { n ≤ length tape.now }
    ensures { (text : List ℕ) (ws : List Word) (a : Actor) → Tells text tape.now n ws a → result ≡ place_told (earliest (each type_faults (types (actor_items a)))) }
{
    walk(tape, n)
}
