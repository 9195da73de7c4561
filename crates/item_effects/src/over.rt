// The items over expressions that wait.
ghost use Rattle.settled.specs.Form.{most_settled};
ghost use Rattle.std.specs.Prelude.{◌≡◌, not, ◌&&◌, ◌+◌, ◌≤◌, min, max};
ghost use Rattle.size_walk.specs.Effects.{has, unary_wide, binary_wide, copies_effect, cell_effect, range_effect, begun_effect, joined_effect, beside_effect, unary_effect, binary_effect, choice_effect, selected_effect, arm_effect, select_effect};

use plan::Item;
use size_walk::{Effect, FAULTY, Seen, ends, faulty, gives, tested};

const WIDE: u32 = language::Expression::WIDTH;

// The slots of what cases select by come after those of the `val`s.
const CASES: u32 = language::Plan::VALS;

// An arm stands inside one case at least.
const ARMS: u32 = CASES - 1;

#[tactic(auto, unfolding(size_walk::specs::Effects::copies_effect, size_walk::specs::Effects::through_of, size_walk::specs::Effects::tested_of, size_walk::specs::Effects::has))]
pub fn copies(p: u32, n: u32, seen: Seen) -> Effect
    ensures { result ≡ copies_effect seen p n }
{
    let emits = Some(Item::Copies(n, seen.x));
    if WIDE < seen.x {
        return faulty(1, p, emits);
    }
    let w = u64::from(n) * u64::from(seen.x);
    if w <= u64::from(WIDE) {
        return gives(1, w as u32, p, None, emits);
    }
    tested(false, 1, 0, p, p, emits)
}

#[tactic(auto, unfolding(size_walk::specs::Effects::cell_effect, size_walk::specs::Effects::through_of, size_walk::specs::Effects::has))]
pub fn cell(p: u32, m: u32, first: u32, size: u32, w: u32, seen: Seen) -> Effect
    ensures { result ≡ cell_effect seen p m first size w }
{
    let emits = Some(Item::Cell(m, first, size));
    if WIDE < seen.x {
        return faulty(1, p, emits);
    }
    gives(1, w, p, None, emits)
}

#[tactic(auto, unfolding(size_walk::specs::Effects::range_effect, size_walk::specs::Effects::through_of, size_walk::specs::Effects::tested_of, size_walk::specs::Effects::has))]
pub fn range(p: u32, i: u32, j: u32, seen: Seen) -> Effect
    ensures { result ≡ range_effect seen p i j }
{
    let emits = Some(Item::Range(i, j));
    if WIDE < seen.x {
        return faulty(1, seen.s, emits);
    }
    if i < seen.x && j < seen.x {
        return gives(1, ranges::range_width(i, j), seen.s, None, emits);
    }
    tested(false, 1, 0, seen.s, p, emits)
}

// Parentheses and the default arm: the same expression, which begins before.
#[tactic(auto, unfolding(size_walk::specs::Effects::begun_effect))]
pub fn begun(p: u32, seen: Seen) -> Effect
    ensures { result ≡ begun_effect seen p }
{
    gives(1, seen.x, p, None, None)
}

// Only here a width over 64 has been kept, as 65.
#[tactic(auto, unfolding(size_walk::specs::Effects::joined_effect, size_walk::specs::Effects::through_of, size_walk::specs::Effects::has))]
pub fn joined(p: u32, seen: Seen) -> Effect
    ensures { result ≡ joined_effect seen p }
{
    if seen.x == FAULTY {
        return faulty(1, p, None);
    }
    tested(seen.x <= WIDE, 1, seen.x, p, p, None)
}

// The sum, where it is at most 64; else 65.
fn together(x: u32, y: u32) -> u32
    ensures { result ≡ min (x + y) 65 }
{
    x.saturating_add(y).min(65)
}

#[tactic(auto, unfolding(size_walk::specs::Effects::beside_effect, size_walk::specs::Effects::through_of))]
pub fn beside(seen: Seen) -> Effect
    ensures { result ≡ beside_effect seen }
{
    let emits = Some(Item::Beside(seen.x));
    if seen.x == FAULTY || seen.y == FAULTY {
        return faulty(2, seen.t, emits);
    }
    gives(2, together(seen.y, seen.x), seen.t, None, emits)
}

#[tactic(auto, unfolding(size_walk::specs::Effects::unary_wide, size_walk::specs::Effects::before_width))]
fn unary_width(op: u32, w: u32) -> u32
    ensures { result ≡ unary_wide op w }
{
    match plan::unary_item(op, w) {
        Item::Before(u, v) => value::unary_width(u, v),
        _ => 0,
    }
}

#[tactic(auto, unfolding(size_walk::specs::Effects::unary_effect, size_walk::specs::Effects::through_of, size_walk::specs::Effects::has))]
pub fn unary(p: u32, op: u32, seen: Seen) -> Effect
    ensures { result ≡ unary_effect seen p op }
{
    let emits = Some(plan::unary_item(op, seen.x));
    if WIDE < seen.x {
        return faulty(1, p, emits);
    }
    gives(1, unary_width(op, seen.x), p, None, emits)
}

#[tactic(auto, unfolding(size_walk::specs::Effects::binary_wide, size_walk::specs::Effects::between_width))]
fn binary_width(op: u32, m: u32, n: u32) -> u32
    requires { (m ≤ 64) × (n ≤ 64) }
    ensures { result ≡ binary_wide op m n }
{
    match plan::binary_item(op, m, n) {
        Item::Between(o, _, _) => value::binary_width(o, m, n),
        _ => 0,
    }
}

#[tactic(auto, unfolding(size_walk::specs::Effects::has))]
fn either(x: u32, y: u32) -> bool
    ensures { result ≡ not (has x && has y) }
{
    WIDE < x || WIDE < y
}

#[tactic(auto, unfolding(size_walk::specs::Effects::binary_effect, size_walk::specs::Effects::through_of, size_walk::specs::Effects::has))]
pub fn binary(op: u32, seen: Seen) -> Effect
    ensures { result ≡ binary_effect seen op }
{
    let emits = Some(plan::binary_item(op, seen.y, seen.x));
    if either(seen.x, seen.y) {
        return faulty(2, seen.t, emits);
    }
    let w = binary_width(op, seen.y, seen.x);
    tested(w <= WIDE, 2, w, seen.t, seen.t, emits)
}

#[tactic(auto, unfolding(size_walk::specs::Effects::choice_effect, size_walk::specs::Effects::through_of, size_walk::specs::Effects::has))]
pub fn choice(start: u32, seen: Seen) -> Effect
    ensures { result ≡ choice_effect seen start }
{
    let emits = Some(Item::Choice);
    if either(seen.x, seen.y) || WIDE < seen.z {
        return faulty(3, start, emits);
    }
    gives(3, seen.y.max(seen.x), start, None, emits)
}

#[tactic(auto, unfolding(size_walk::specs::Effects::selected_effect, size_walk::specs::Effects::through_of, size_walk::specs::Effects::has))]
pub fn selected(p: u32, seen: Seen) -> Effect
    ensures { result ≡ selected_effect seen p }
{
    if either(seen.x, seen.y) {
        return faulty(2, p, None);
    }
    gives(2, seen.x, p, None, None)
}

// The arm's slot is that of the innermost case around.
#[tactic(auto, unfolding(size_walk::specs::Effects::arm_effect, size_walk::specs::Effects::through_of, size_walk::specs::Effects::has))]
pub fn arm(p: u32, label: u32, seen: Seen) -> Effect
    requires { seen.cases ≤ most_settled }
    ensures { result ≡ arm_effect seen p label }
{
    let slot = ARMS + seen.cases;
    let emits = Some(Item::Arm(label, slot));
    if either(seen.x, seen.y) {
        return faulty(2, p, emits);
    }
    gives(2, seen.y.max(seen.x), p, None, emits)
}

// What a case selects by stays where it waits, and is kept too.
#[tactic(auto, unfolding(size_walk::specs::Effects::select_effect))]
pub fn select(seen: Seen) -> Effect
    requires { seen.cases ≤ most_settled }
    ensures { result ≡ select_effect seen }
{
    ends(0, None, Some(Item::Keep(CASES + seen.cases, seen.x)))
}
