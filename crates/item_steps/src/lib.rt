// One item of a sound rule: no test is left to be made.
// What comes in: the item, values, memory, slots, outputs, and the tables that a cycle works in.
// What goes out: these after it, and how many values wait.
#![tactic(auto)]

ghost use Rattle.std.specs.Prelude.{◌≡◌, false, List, [], ◌∷◌, ℕ, ◌+◌, ◌-◌, ◌≤◌, ◌<◌, eqb, length, get_or, set, drop};
ghost use Rattle.plan.specs.Sound.{waiting};
ghost use Rattle.plan.specs.Waits.{top};
ghost use Rattle.plan.specs.Items.{takes_of, acts_of};
ghost use Rattle.item_steps.specs.Machine.{cell_of};
ghost use Rattle.item_steps.specs.Tables.{empty_tables};
ghost use Rattle.item_steps.specs.Ready.{Ready, Writes, Left, left_by, Wrote, Carried, item_run};

use plan::{Item, WAITS, constant, place};
use ranges::{beside, chosen, copies, range};
use value::{binary, unary};

// What a cycle works in, where nobody sees: the values that wait, each cell as it will be, whether it is written, and whether one is written twice.
// The memory has at most CELLS cells.
#[derive(Drop)]
pub struct Tables<const CELLS: usize> {
    pub stack: [u64; WAITS],
    pub next: [u64; CELLS],
    pub changed: [bool; CELLS],
    pub clash: bool,
}

impl<const CELLS: usize> Tables<CELLS> {
    // No number of them counts before `begin`.
    pub fn new() -> Self
        ensures { result ≡ empty_tables CELLS }
    {
        Tables {
            stack: [0; WAITS],
            next: [0; CELLS],
            changed: [false; CELLS],
            clash: false,
        }
    }

    // Before the first write the cells will be as they are.
    pub fn begin(&mut self, memory: &[u64])
        requires { length memory.now ≤ CELLS }
        ensures after { Writes memory.now self.new [] }
        ensures stack { self.new.stack ≡ self.old.stack }
    {
        let cells = memory.len();
        self.next[..cells].copy_from_slice(memory);
        self.changed[..cells].fill(false);
        self.clash = false;
    }

    // A write waits in the table of cells; a second one to the same cell is a clash.
    fn write(&mut self, f: u32, size: u32, a: u64, v: u64)
        requires { f + size ≤ CELLS }
        ensures after { Wrote f size a v self.old self.new }
        ensures stack { self.new.stack ≡ self.old.stack }
    {
        if a >= u64::from(size) {
            return;
        }
        let at = (u64::from(f) + a) as usize;
        if self.changed[at] {
            self.clash = true;
            return;
        }
        self.changed[at] = true;
        self.next[at] = v;
    }
}

// The k-th waiting value from the latest on.
fn last(stack: &[u64], n: usize, k: usize) -> u64
    requires { (k < n) × (n ≤ length stack.now) }
    ensures { result ≡ get_or (top stack.now n) k 0 }
{
    stack[n - 1 - k]
}

// A value in place of the latest k: how many wait then.
fn put(v: u64, stack: &mut [u64; WAITS], n: usize, k: usize) -> usize
    requires { (k ≤ n) × (n - k < waiting) }
    ensures { (result ≤ waiting) × (top stack.new result ≡ v ∷ drop k (top stack.old n)) }
{
    let at = n - k;
    stack[at] = v;
    at + 1
}

// The latest value into a table: how many wait then.
fn store(table: &mut [u64], k: u32, stack: &[u64], n: usize) -> usize
    requires { (k < length table.old) × (1 ≤ n) × (n ≤ length stack.now) }
    ensures { (result ≡ n - 1) × (table.new ≡ set table.old k (get_or (top stack.now n) 0 0)) }
{
    let q = place(k);
    table[q] = last(stack, n, 0);
    n - 1
}

// A cell of a memory, 0 past it.
fn cell(memory: &[u64], f: u32, size: u32, a: u64) -> u64
    requires { f + size ≤ length memory.now }
    ensures { result ≡ cell_of memory.now f size a }
{
    if a < u64::from(size) {
        let at = (u64::from(f) + a) as usize;
        memory[at]
    } else {
        0
    }
}

// What a slot holds.
pub fn slot(slots: &[u64], k: u32) -> u64
    requires { k < length slots.now }
    ensures { result ≡ get_or slots.now k 0 }
{
    let q = place(k);
    slots[q]
}

// A slot holds a case's label.
fn holds(slots: &[u64], k: u32, label: u32) -> bool
    requires { k < length slots.now }
    ensures { result ≡ eqb (get_or slots.now k 0) label }
{
    slot(slots, k) == u64::from(label)
}

// An item that leaves a value: how many wait then. Each arm reads and writes for itself, so that one jump leads to all it does.
fn leave(
    i: Item,
    values: &[u64],
    memory: &[u64],
    slots: &[u64],
    s: &mut [u64; WAITS],
    n: usize,
) -> usize
    requires { (n ≤ waiting) × (acts_of i ≡ false) × ((outputs : List ℕ) × Ready values.now memory.now s.old n slots.now outputs i) }
    ensures upper_bound { result ≤ waiting }
    ensures result_after { top s.new result ≡ left_by values.now memory.now slots.now s.old n i }
{
    match i {
        Item::Const(_, lo, hi) => put(constant(lo, hi), s, n, 0),
        Item::Port(k) => put(slot(values, k), s, n, 0),
        Item::Let(k) => put(slot(slots, k), s, n, 0),
        Item::Cell(_, f, size) => put(cell(memory, f, size, last(s, n, 0)), s, n, 1),
        Item::Range(a, b) => put(range(last(s, n, 0), a, b), s, n, 1),
        Item::Copies(k, w) => put(copies(k, w, last(s, n, 0)), s, n, 1),
        Item::Beside(w) => put(beside(w, last(s, n, 1), last(s, n, 0)), s, n, 2),
        Item::Before(u, w) => put(unary(u, w, last(s, n, 0)), s, n, 1),
        Item::Between(o, a, b) => put(binary(o, a, b, last(s, n, 1), last(s, n, 0)), s, n, 2),
        Item::Choice => put(chosen(last(s, n, 2), last(s, n, 1), last(s, n, 0)), s, n, 3),
        Item::Arm(c, k) => {
            let x = last(s, n, 1);
            let y = last(s, n, 0);
            put(if holds(slots, k, c) { x } else { y }, s, n, 2)
        }
        Item::Keep(..) | Item::Assign(_) | Item::Write(..) | Item::Bad => n,
    }
}

// One item: how many values wait then. What it asks is known: see `Ready`.
pub fn step<const CELLS: usize>(
    i: Item,
    values: &[u64],
    memory: &[u64],
    slots: &mut [u64],
    outputs: &mut [u64],
    tables: &mut Tables<CELLS>,
    n: usize,
) -> usize
    requires n_le_waiting { (n ≤ waiting) × (length memory.now ≤ CELLS) }
    requires ready { Ready values.now memory.now tables.old.stack n slots.old outputs.old i }
    ensures waits_le_waiting { result ≤ waiting }
    ensures fact { let held = Writes memory.now tables.old in
        let run = item_run values.now memory.now i tables.old.stack n slots.old outputs.old in
        let left = Left memory.now result slots.new outputs.new tables.new in
        Carried held run left }
{
    match i {
        Item::Keep(k, _) => store(slots, k, &tables.stack, n),
        Item::Assign(p) => store(outputs, p, &tables.stack, n),
        Item::Write(_, f, size) => {
            let x = last(&tables.stack, n, 1);
            let y = last(&tables.stack, n, 0);
            tables.write(f, size, x, y);
            n - 2
        }
        _ => leave(i, values, memory, slots, &mut tables.stack, n),
    }
}
