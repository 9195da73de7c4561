// One rule's code, checked item by item: the widths that wait, the widths of the slots, the outputs assigned.
ghost use Rattle.std.specs.Prelude.{◌≡◌, List, [], ℕ, ◌+◌, ◌*◌, ◌%◌, ◌^◌, ◌≤◌, ◌<◌, length};
ghost use Rattle.language.specs.Limits.{limits};
ghost use Rattle.plan.specs.declared.Item.TheVariants.{Keep, Assign, Write};
ghost use Rattle.plan.specs.Layout.{port_count, length_at, code_before, code_from};
ghost use Rattle.plan.specs.Sound.{rules_of, rule_check, slots, waiting};
ghost use Rattle.soundness.specs.Steps.{masks, Standing, Pushed, Acted, Checked, end_at, items_end, Masked};

use item_widths::{keepable, memory_ok, output_ok, waiting, width_of};
use language::Expression;
use plan::{Item, SLOTS, UNSET, WAITS, fetch, length_at, memory_width, place, present_at, takes};

// Midway in a rule's code: how many widths wait, and the mask of the outputs assigned.
#[derive(Clone, Copy)]
pub struct State {
    pub waits: usize,
    pub assigned: u32,
}

// A width in place of the latest k.
fn push_over(ws: &mut [u32], state: State, k: usize, w: u32) -> Option<State>
    requires { Standing ws.old state.waits state.assigned × (length ws.old ≡ waiting) }
    ensures { Pushed k (Some w) state.waits state.assigned ws.old ws.new result }
{
    let m = state.waits.checked_sub(k)?;
    if w > Expression::WIDTH || m >= WAITS {
        return None;
    }
    ws[m] = w;
    Some(State {
        waits: m + 1,
        ..state
    })
}

// The latest width x goes into a slot.
fn keep(ls: &mut [u32], state: State, k: u32, w: u32, x: u32) -> Option<State>
    requires { length ls.old ≡ slots }
    ensures { Acted (rules_of [] 0 0) (Keep k w) state.waits x ls.old state.assigned result ls.new }
{
    let waits = state.waits.checked_sub(1)?;
    if keepable(ls, k) && x <= w && w <= Expression::WIDTH {
        ls[place(k)] = w;
        Some(State { waits, ..state })
    } else {
        None
    }
}

// Two to the power of p.
fn power(p: u32) -> u32
    requires { p < 32 }
    ensures { result ≡ 2 ^ p }
{
    1 << p
}

// The latest width x goes to an output.
fn assign(plan: &[u32], present: u32, taken: u32, state: State, p: u32, x: u32) -> Option<State>
    requires { (port_count plan.now ≤ limits.ports) × (state.assigned < masks) }
    ensures { (ls : List ℕ) → Acted (rules_of plan.now present taken) (Assign p) state.waits x ls state.assigned result ls }
{
    let waits = state.waits.checked_sub(1)?;
    if output_ok(plan, present, taken, state.assigned, p, x) {
        Some(State {
            waits,
            assigned: state.assigned + power(p),
        })
    } else {
        None
    }
}

// The latest width x goes to a memory, at the address before it.
fn write(plan: &[u32], state: State, m: u32, f: u32, size: u32, x: u32) -> Option<State>
    ensures { (ls : List ℕ) → Acted (rules_of plan.now 0 0) (Write m f size) state.waits x ls state.assigned result ls }
{
    let waits = state.waits.checked_sub(2)?;
    if memory_ok(plan, m, f, size) && x <= memory_width(plan, m) {
        Some(State { waits, ..state })
    } else {
        None
    }
}

// One item.
fn check_step(
    i: Item,
    plan: &[u32],
    present: u32,
    taken: u32,
    ws: &mut [u32],
    ls: &mut [u32],
    state: State,
) -> Option<State>
    requires { Standing ws.old state.waits state.assigned × (length ws.old ≡ waiting) × (length ls.old ≡ slots) × (port_count plan.now ≤ limits.ports) }
    ensures { Checked (rules_of plan.now present taken) i state.waits state.assigned ws.old ls.old result ws.new ls.new }
{
    let n = state.waits;
    match i {
        Item::Keep(k, w) => keep(ls, state, k, w, waiting(ws, n, 0)),
        Item::Assign(p) => assign(plan, present, taken, state, p, waiting(ws, n, 0)),
        Item::Write(m, f, size) => write(plan, state, m, f, size, waiting(ws, n, 0)),
        _ => {
            let w = width_of(i, plan, present, ls, ws, n)?;
            push_over(ws, state, takes(i), w)
        }
    }
}

// Some items from a place of the plan on: the outputs that they assign.
fn check_items(
    plan: &[u32],
    present: u32,
    taken: u32,
    from: usize,
    items: usize,
    ws: &mut [u32],
    ls: &mut [u32],
) -> Option<u32>
    requires { (from + 4 * items ≤ length plan.now) × (length ws.old ≡ waiting) × (length ls.old ≡ slots) × (port_count plan.now ≤ limits.ports) }
    ensures { Masked result × (end_at result ≡ items_end (rules_of plan.now present taken) plan.now from items ls.old) }
{
    let mut state = State {
        waits: 0,
        assigned: 0,
    };
    for i in 0..items {
        let item = fetch(plan, from + 4 * i);
        state = check_step(item, plan, present, taken, ws, ls, state)?;
    }
    (state.waits == 0).then_some(state.assigned)
}

// A rule's code, which stands from a place on, with slots of its own.
pub fn check_rule(plan: &[u32], taken: u32, r: u32, from: usize, ws: &mut [u32]) -> Option<u32>
    requires from_value { (from ≡ code_from plan.now + 1 + code_before plan.now r) × (from + length_at plan.now r ≤ length plan.now) × (length_at plan.now r % 4 ≡ 0) }
    requires ws_len { (length ws.old ≡ waiting) × (port_count plan.now ≤ limits.ports) }
    ensures { Masked result × (end_at result ≡ rule_check plan.now taken r) }
{
    let mut ls = [UNSET; SLOTS];
    let items = place(length_at(plan, r)) / 4;
    check_items(plan, present_at(plan, r), taken, from, items, ws, &mut ls)
}
