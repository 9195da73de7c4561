// One settled item in the tables of the walk: what it goes by, and what is then written.
ghost use Rattle.std.specs.Prelude.{◌≡◌, ◌&&◌, ◌||◌, List, ℕ, ◌+◌, ◌-◌, ◌*◌, ◌≤◌, ◌<◌, eqb, ltb, length, get_or, take, drop};
ghost use Rattle.std.proofs.lemmas.List.Edits.{sets};
ghost use Rattle.plan.specs.Waits.{top};
ghost use Rattle.settled.specs.Form.{VAL, TYPED, RULED, most_settled};
ghost use Rattle.size_walk.specs.Steps.{State, seen_of, width_on, start_on, emits_of, kept_in, held_of, ended_of, room, Holds};
ghost use Rattle.laws.specs.Tables.{Kept};
ghost use Rattle.size_walk.specs.Bounds.{effect_at};

use crate::effect;
use plan::Item;
use settled::{RULED, TYPED, VAL};
use size_walk::{Effect, Far, Seen};

// The k-th number of item i.
pub fn part(items: &[u32], i: usize, k: usize) -> u32
    requires { (i < most_settled) × (6 * i + 6 ≤ length items.now) × (k < 6) }
    ensures { result ≡ get_or items.now (6 * i + k) 0 }
{
    items[6 * i + k]
}

// What item i does.
#[tactic(auto, unfolding(size_walk::specs::Bounds::effect_at))]
pub fn effect_at(items: &[u32], i: usize, seen: Seen) -> Effect
    requires { (i < most_settled) × (6 * i + 6 ≤ length items.now) × (seen.cases ≤ most_settled) }
    ensures { result ≡ effect_at items.now i seen }
{
    effect(
        part(items, i, 0),
        part(items, i, 1),
        part(items, i, 2),
        part(items, i, 3),
        part(items, i, 4),
        part(items, i, 5),
        seen,
    )
}

// The k-th of what waits from the latest on, 0 where fewer wait.
#[tactic(auto, using(plan::proofs::Waits::top_at, plan::proofs::Waits::top_past))]
fn last(l: &[u32], n: usize, k: usize) -> u32
    requires { n ≤ length l.now }
    ensures { result ≡ get_or (top l.now n) k 0 }
{
    if k < n { l[n - 1 - k] } else { 0 }
}

// The width that a slot holds, 0 where there is no such slot.
fn slot(slots: &[u32], k: u32) -> u32
    ensures { result ≡ get_or slots.now k 0 }
{
    slots.get(plan::place(k)).copied().unwrap_or(0)
}

#[tactic(auto, unfolding(size_walk::specs::Steps::seen_of))]
pub fn seen(widths: &[u32], starts: &[u32], slots: &[u32], k: u32, far: Far) -> Seen
    requires { (far.waits ≤ length widths.now) × (far.waits ≤ length starts.now) }
    ensures cases { result.cases ≡ far.cases }
    ensures state { (code : List ℕ) (lengths : List ℕ) (s : State) → Holds widths.now starts.now slots.now code lengths far s → result ≡ seen_of s k }
{
    let n = far.waits;
    Seen {
        x: last(widths, n, 0),
        y: last(widths, n, 1),
        z: last(widths, n, 2),
        s: last(starts, n, 0),
        t: last(starts, n, 1),
        u: last(starts, n, 2),
        breadth: far.breadth,
        start: far.start,
        cases: far.cases,
        held: slot(slots, k),
    }
}

// How many wait after an item: it takes some and leaves one or none.
pub fn left(e: Effect, n: usize, widths: &mut [u32], starts: &mut [u32]) -> usize
    requires { (n < length widths.old) × (n < length starts.old) }
    ensures few { result ≤ n + 1 }
    ensures widths { top widths.new result ≡ width_on e.leaves (drop e.takes (top widths.old n)) }
    ensures starts { top starts.new result ≡ start_on e.leaves (drop e.takes (top starts.old n)) }
{
    let q = n.saturating_sub(e.takes);
    match e.leaves {
        Some(w) => {
            widths[q] = w.width;
            starts[q] = w.start;
            q + 1
        }
        None => q,
    }
}

// The code with what an item adds to it: how long it is.
#[tactic(auto, unfolding(size_walk::specs::Steps::emits_of))]
pub fn emitted(emits: Option<Item>, code: &mut [u32], out: usize) -> usize
    requires { out + 4 ≤ length code.old }
    ensures { (result ≡ out + length (emits_of emits)) × (code.new ≡ sets code.old out (emits_of emits)) }
{
    match emits {
        Some(item) => {
            plan::put(item, code, out);
            out + 4
        }
        None => out,
    }
}

// The width that an item keeps.
#[tactic(auto, unfolding(size_walk::specs::Steps::kept_in))]
fn kept(item: Item) -> u32
    ensures { result ≡ kept_in item }
{
    match item {
        Item::Keep(_, w) => w,
        _ => 0,
    }
}

// The width that a `val` keeps, in its slot.
#[tactic(auto, unfolding(size_walk::specs::Steps::held_of))]
pub fn hold(op: u32, k: u32, emits: Option<Item>, slots: &mut [u32])
    ensures { slots.new ≡ held_of (eqb op VAL || eqb op TYPED) k emits slots.old }
{
    if let Some(item) = emits {
        let q = plan::place(k);
        if matches!(op, VAL | TYPED) && q < slots.len() {
            slots[q] = kept(item);
        }
    }
}

// A rule ends: the length of its code.
#[tactic(auto, unfolding(size_walk::specs::Steps::ended_of))]
pub fn ended(op: u32, lengths: &mut [u32], rules: usize, long: usize) -> usize
    requires { (rules ≤ room) × (length lengths.old ≡ room) × (long < 4294967296) }
    ensures few { result ≤ room }
    ensures kept { Kept rules result lengths.old lengths.new }
    ensures lengths { take result lengths.new ≡ ended_of (eqb op RULED && ltb rules room) long (take rules lengths.old) }
{
    if op == RULED && rules < lengths.len() {
        lengths[rules] = long as u32;
        rules + 1
    } else {
        rules
    }
}
