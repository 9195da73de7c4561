// The width that an item leaves, if it leaves one: the tests of soundness, a family at a time.
// What comes in: an item, the plan, the widths that wait and those of the slots.
// What goes out: the width that waits next, or that the item is not sound.
#![tactic(auto, unfolding(plan::specs::Sound::input_ok, plan::specs::Sound::output_ok, plan::specs::Sound::memory_ok, plan::specs::Sound::slot_width, plan::specs::Sound::keepable))]

ghost use Rattle.std.specs.Prelude.{◌≡◌, ◌&&◌, [], ◌+◌, ◌*◌, ◌^◌, ◌≤◌, ◌<◌, max, eqb, leb, ltb, length, get_or};
ghost use Rattle.language.specs.Limits.{limits};
ghost use Rattle.language.specs.Values.{binary_width, range_width};
ghost use Rattle.plan.specs.Sound.{input_ok, output_ok, memory_ok, slot_width, keepable};
ghost use Rattle.plan.specs.Sound.{rules_of};
ghost use Rattle.plan.specs.Sound.{waiting as sound_waiting};
ghost use Rattle.item_widths.specs.Widths.{width_if, kept_width, width_of, Wide};
ghost use Rattle.plan.specs.Waits.{top};

use language::{Binary, Expression, Plan};
use plan::{
    Item, OUTPUT, SLOTS, UNSET, bit, cells_before, constant, memory_count, memory_size,
    memory_width, place, port_at, port_count, within,
};
use value::{binary_width, unary_width};

fn const_width(w: u32, lo: u32, hi: u32) -> Option<u32>
    ensures { result ≡ width_if (leb w limits.expressionWidth && ltb (lo + hi * 2 ^ 32) (2 ^ w)) w }
{
    (w <= Expression::WIDTH && within(constant(lo, hi), w)).then_some(w)
}

// An input that the rule requires present.
fn input_ok(plan: &[u32], present: u32, i: u32) -> bool
    ensures { result ≡ input_ok (rules_of plan.now present 0) i }
{
    i < port_count(plan) && port_at(plan, i) <= Plan::WIDTH && bit(present, i) == 1
}

// An output that the rule requires present and that is not assigned yet, wide enough.
pub fn output_ok(plan: &[u32], present: u32, taken: u32, assigned: u32, k: u32, w: u32) -> bool
    ensures { result ≡ output_ok (rules_of plan.now present taken) assigned k w }
{
    let p = port_at(plan, k);
    k < port_count(plan)
        && p >= OUTPUT
        && bit(present, k) == 1
        && bit(assigned, k) == 0
        && bit(taken, k) == 0
        && w <= p - OUTPUT
}

// A memory, by its number, its first cell and its size. Only a memory's number is counted up to.
pub fn memory_ok(plan: &[u32], m: u32, f: u32, n: u32) -> bool
    ensures { result ≡ memory_ok (rules_of plan.now 0 0) m f n }
{
    m < memory_count(plan) && place(f) == cells_before(plan, m) && n == memory_size(plan, m)
}

// The width of a slot, or that it was not kept.
fn slot_width(ls: &[u32], k: u32) -> u32
    ensures { result ≡ slot_width (rules_of [] 0 0) ls.now k }
{
    ls.get(place(k)).copied().unwrap_or(UNSET)
}

// The width of a `val`'s slot, where it was kept.
fn let_width(ls: &[u32], k: u32) -> Option<u32>
    ensures { result ≡ kept_width (rules_of [] 0 0) ls.now k }
{
    let w = slot_width(ls, k);
    (k < Plan::VALS && w <= Expression::WIDTH).then_some(w)
}

// A slot that a `case` selects by, and that was kept.
fn arm_ok(ls: &[u32], k: u32) -> bool
    ensures { result ≡ (leb limits.vals k && leb (slot_width (rules_of [] 0 0) ls.now k) limits.expressionWidth) }
{
    k >= Plan::VALS && slot_width(ls, k) <= Expression::WIDTH
}

// A slot that may be kept: that of a `val` once.
pub fn keepable(ls: &[u32], k: u32) -> bool
    ensures { result ≡ keepable (rules_of [] 0 0) ls.now k }
{
    if k < Plan::VALS {
        slot_width(ls, k) == UNSET
    } else {
        place(k) < SLOTS
    }
}

fn range_width(i: u32, j: u32, y: u32) -> Option<u32>
    requires { y ≤ limits.expressionWidth }
    ensures { result ≡ width_if (ltb i y && ltb j y) (range_width i j) }
{
    (i < y && j < y).then(|| ranges::range_width(i, j))
}

fn copies_width(n: u32, w: u32, y: u32) -> Option<u32>
    requires { y ≤ limits.expressionWidth }
    ensures { result ≡ width_if (eqb y w && leb n limits.copies) (n * w) }
{
    (y == w && n <= Expression::COPIES).then(|| n * w)
}

fn between_width(o: Binary, m: u32, n: u32, x: u32, y: u32) -> Option<u32>
    requires { (x ≤ limits.expressionWidth) × (y ≤ limits.expressionWidth) }
    ensures { result ≡ width_if (eqb x m && eqb y n) (binary_width o m n) }
{
    (x == m && y == n).then(|| binary_width(o, m, n))
}

fn beside_width(w: u32, x: u32, y: u32) -> Option<u32>
    requires { (x ≤ limits.expressionWidth) × (y ≤ limits.expressionWidth) }
    ensures { result ≡ width_if (eqb y w) (x + y) }
{
    (y == w).then_some(x + y)
}

// The k-th waiting width from the latest on, 0 where fewer wait.
#[tactic(auto, using(plan::proofs::Waits::top_at, plan::proofs::Waits::top_past))]
pub fn waiting(ws: &[u32], n: usize, k: usize) -> u32
    requires { (n ≤ sound_waiting) × (length ws.now ≡ sound_waiting) × Wide ws.now n }
    ensures { (result ≡ get_or (top ws.now n) k 0) × (result ≤ limits.expressionWidth) }
{
    if k < n { ws[n - 1 - k] } else { 0 }
}

// The wider of the latest two.
fn widest(ws: &[u32], n: usize) -> u32
    requires { (n ≤ sound_waiting) × (length ws.now ≡ sound_waiting) × Wide ws.now n }
    ensures { result ≡ max (get_or (top ws.now n) 1 0) (get_or (top ws.now n) 0 0) }
{
    waiting(ws, n, 1).max(waiting(ws, n, 0))
}

// The width that an item leaves over the widths that wait. Each arm reads for itself, so that one jump leads to all it does.
pub fn width_of(
    i: Item,
    plan: &[u32],
    present: u32,
    ls: &[u32],
    ws: &[u32],
    n: usize,
) -> Option<u32>
    requires { (n ≤ sound_waiting) × (length ws.now ≡ sound_waiting) × Wide ws.now n }
    ensures { result ≡ width_of (rules_of plan.now present 0) ls.now (get_or (top ws.now n) 1 0) (get_or (top ws.now n) 0 0) i }
{
    match i {
        Item::Const(w, lo, hi) => const_width(w, lo, hi),
        Item::Port(k) => input_ok(plan, present, k).then_some(port_at(plan, k)),
        Item::Let(k) => let_width(ls, k),
        Item::Cell(m, f, k) => memory_ok(plan, m, f, k).then_some(memory_width(plan, m)),
        Item::Range(a, b) => range_width(a, b, waiting(ws, n, 0)),
        Item::Copies(k, w) => copies_width(k, w, waiting(ws, n, 0)),
        Item::Beside(w) => beside_width(w, waiting(ws, n, 1), waiting(ws, n, 0)),
        Item::Before(u, w) => (waiting(ws, n, 0) == w).then_some(unary_width(u, w)),
        Item::Between(o, a, b) => between_width(o, a, b, waiting(ws, n, 1), waiting(ws, n, 0)),
        Item::Choice => Some(widest(ws, n)),
        Item::Arm(_, k) => arm_ok(ls, k).then_some(widest(ws, n)),
        Item::Keep(..) | Item::Assign(_) | Item::Write(..) | Item::Bad => None,
    }
}
