// The plan: its items and its layout. Whether it is sound is the crate `soundness`.
// What comes in: a list of 32-bit numbers. What goes out: its numbers by name, and the items of its code.
// The plan of an accepted actor is a definition of the crate `plan_of`.
#![tactic(auto)]

mod items;
mod layout;

pub use items::{binary_item, constant, fetch, fetch_sound, put, takes, unary_item};
use language::{Binary, Unary};
pub use layout::{
    absent_at, bit, cells_before, code_at, code_before, code_count, code_from, group_at,
    group_count, group_in, groups_from, groups_in, length_at, masks_in, memory_count, memory_size,
    memory_width, number, place, port_at, port_count, present_at, rule_count, rules_before,
    rules_from, within,
};

// The slots of a rule: its 16 `val`s, and 32 for `case`s within one another, since each takes eight words of an expression's 256.
pub const SLOTS: usize = 48;

// The values that wait at a time in a sound plan, at most.
pub const WAITS: usize = 256;

// What the number of an output port has above its width.
pub const OUTPUT: u32 = 256;

// The bits of a mask, each of one port.
pub const MASK_BITS: u32 = 32;

// In a table of the slots' widths, that of a slot not kept: no width, 64 at most, is as large. A number and no `None`: `slot_width` of specs/ is
// of lists of numbers.
pub const UNSET: u32 = 99;

// One item of a rule's code, as docs/PLAN.md numbers them. `Bad` is no item: it is a variant and no `None`, since `decode` and
// `check1` of specs/, and `fetch`'s contract, are of items.
#[derive(Clone, Copy)]
pub enum Item {
    Const(u32, u32, u32),
    Port(u32),
    Let(u32),
    Cell(u32, u32, u32),
    Range(u32, u32),
    Copies(u32, u32),
    Beside(u32),
    Before(Unary, u32),
    Between(Binary, u32, u32),
    Choice,
    Arm(u32, u32),
    Keep(u32, u32),
    Assign(u32),
    Write(u32, u32, u32),
    Bad,
}
