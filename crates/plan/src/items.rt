// From four numbers to an item, and what kind of item it is.
ghost use Rattle.std.specs.Prelude.{◌≡◌, ◌+◌, ◌*◌, ◌^◌, ◌≤◌, length};
ghost use Rattle.std.proofs.lemmas.List.Edits.{sets};
ghost use Rattle.plan.specs.Items.{encode, decode, unary_item, binary_item};
ghost use Rattle.plan.specs.Items.{unused as items_unused};
ghost use Rattle.plan.specs.Items.{item_at, takes_of, acts_of};
ghost use Rattle.plan.specs.declared.Item.TheVariants.{Bad};

use crate::Item;
use language::{Binary, Unary};

// The operations of items, as docs/PLAN.md numbers them. Numbers and no enum: a plan is a list of numbers, any of which may stand
// there, and `decode` of specs/ is of them.
const CONST: u32 = 0;

const PORT: u32 = 1;

const LET: u32 = 2;

const CELL: u32 = 3;

const RANGE: u32 = 4;

const COPIES: u32 = 5;

const BESIDE: u32 = 6;

const UNARY: u32 = 7;

const BINARY: u32 = 8;

const CHOICE: u32 = 9;

const ARM: u32 = 10;

const KEEP: u32 = 11;

const ASSIGN: u32 = 12;

const WRITE: u32 = 13;

// What is no item.
const BAD: u32 = 14;

// An operand that is not used is 0.
fn unused(n: u32, i: Item) -> Item
    ensures { result ≡ items_unused n i }
{
    if n == 0 { i } else { Item::Bad }
}

// An operator before its operand, by its number.
#[tactic(auto, using(crate::proofs::Lists::unary_named, crate::proofs::Lists::unary_past))]
pub fn unary_item(a: u32, w: u32) -> Item
    ensures { result ≡ unary_item a w }
{
    match Unary::try_from(a) {
        Ok(u) => Item::Before(u, w),
        Err(_) => Item::Bad,
    }
}

// An operator between its operands, by its number.
#[tactic(auto, using(crate::proofs::Lists::binary_named, crate::proofs::Lists::binary_past))]
pub fn binary_item(a: u32, m: u32, n: u32) -> Item
    ensures { result ≡ binary_item a m n }
{
    match Binary::try_from(a) {
        Ok(o) => Item::Between(o, m, n),
        Err(_) => Item::Bad,
    }
}

// The item that four numbers are.
#[tactic(auto, using(crate::proofs::Lists::decode_past, crate::proofs::Lists::above), unfolding(crate::specs::Items::decode))]
pub fn item(op: u32, a: u32, b: u32, c: u32) -> Item
    ensures { result ≡ decode op a b c }
{
    match op {
        CONST => Item::Const(a, b, c),
        PORT => unused(b, unused(c, Item::Port(a))),
        LET => unused(b, unused(c, Item::Let(a))),
        CELL => Item::Cell(a, b, c),
        RANGE => unused(c, Item::Range(a, b)),
        COPIES => unused(c, Item::Copies(a, b)),
        BESIDE => unused(b, unused(c, Item::Beside(a))),
        UNARY => unused(c, unary_item(a, b)),
        BINARY => binary_item(a, b, c),
        CHOICE => unused(a, unused(b, unused(c, Item::Choice))),
        ARM => unused(c, Item::Arm(a, b)),
        KEEP => unused(c, Item::Keep(a, b)),
        ASSIGN => unused(b, unused(c, Item::Assign(a))),
        WRITE => Item::Write(a, b, c),
        _ => Item::Bad,
    }
}

// The item whose four numbers begin at a place of the plan.
#[tactic(auto, unfolding(crate::specs::Items::item_at))]
pub fn fetch(plan: &[u32], at: usize) -> Item
    requires { at + 4 ≤ length plan.now }
    ensures { result ≡ item_at plan.now at }
{
    item(plan[at], plan[at + 1], plan[at + 2], plan[at + 3])
}

// The item that four numbers of sound code are: the check has looked at the operands that are not used.
#[tactic(auto, using(crate::proofs::Arms::used, crate::proofs::Arms::used_2, crate::proofs::Arms::used_3), unfolding(crate::specs::Items::decode))]
fn sound_item(op: u32, a: u32, b: u32, c: u32) -> Item
    requires { decode op a b c ≡ Bad → ⊥ }
    ensures { result ≡ decode op a b c }
{
    // Operators, the most frequent, and constants are asked for apart: a branch is foreseen better than a jump among all.
    if op % 8 == 0 {
        if op == CONST {
            Item::Const(a, b, c)
        } else {
            binary_item(a, b, c)
        }
    } else {
        match op {
            PORT => Item::Port(a),
            LET => Item::Let(a),
            CELL => Item::Cell(a, b, c),
            RANGE => Item::Range(a, b),
            COPIES => Item::Copies(a, b),
            BESIDE => Item::Beside(a),
            UNARY => unary_item(a, b),
            CHOICE => Item::Choice,
            ARM => Item::Arm(a, b),
            KEEP => Item::Keep(a, b),
            ASSIGN => Item::Assign(a),
            WRITE => Item::Write(a, b, c),
            _ => Item::Bad,
        }
    }
}

// The item at a place of sound code.
#[tactic(auto, unfolding(crate::specs::Items::item_at))]
pub fn fetch_sound(plan: &[u32], at: usize) -> Item
    requires { (at + 4 ≤ length plan.now) × (item_at plan.now at ≡ Bad → ⊥) }
    ensures { result ≡ item_at plan.now at }
{
    sound_item(plan[at], plan[at + 1], plan[at + 2], plan[at + 3])
}

// How many waiting values an item takes.
pub fn takes(i: Item) -> usize
    ensures { result ≡ takes_of i }
{
    match i {
        Item::Const(..) | Item::Port(_) | Item::Let(_) | Item::Bad => 0,
        Item::Cell(..) | Item::Range(..) | Item::Copies(..) | Item::Before(..) => 1,
        Item::Keep(..) | Item::Assign(_) => 1,
        Item::Beside(_) | Item::Between(..) | Item::Arm(..) | Item::Write(..) => 2,
        Item::Choice => 3,
    }
}

// A constant out of its two halves.
pub fn constant(lo: u32, hi: u32) -> u64
    ensures { result ≡ lo + hi * 2 ^ 32 }
{
    u64::from(lo) + u64::from(hi) * 4294967296
}

// The four numbers of an item.
fn encoded(item: Item) -> [u32; 4]
    ensures { result ≡ encode item }
{
    match item {
        Item::Const(w, lo, hi) => [CONST, w, lo, hi],
        Item::Port(i) => [PORT, i, 0, 0],
        Item::Let(k) => [LET, k, 0, 0],
        Item::Cell(m, f, n) => [CELL, m, f, n],
        Item::Range(i, j) => [RANGE, i, j, 0],
        Item::Copies(n, w) => [COPIES, n, w, 0],
        Item::Beside(w) => [BESIDE, w, 0, 0],
        Item::Before(u, w) => [UNARY, u as u32, w, 0],
        Item::Between(o, m, n) => [BINARY, o as u32, m, n],
        Item::Choice => [CHOICE, 0, 0, 0],
        Item::Arm(n, k) => [ARM, n, k, 0],
        Item::Keep(k, w) => [KEEP, k, w, 0],
        Item::Assign(p) => [ASSIGN, p, 0, 0],
        Item::Write(m, f, n) => [WRITE, m, f, n],
        Item::Bad => [BAD, 0, 0, 0],
    }
}

// An item's numbers, at a place of the code.
pub fn put(item: Item, code: &mut [u32], at: usize)
    requires { at + 4 ≤ length code.old }
    ensures { code.new ≡ sets code.old at (encode item) }
{
    code[at..at + 4].copy_from_slice(&encoded(item));
}
