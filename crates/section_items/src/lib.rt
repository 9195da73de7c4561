// What a settled item gives its section of the plan: a port, a memory, a group or a rule.
// What comes in: the settled items, six numbers each, the place of one, and the lengths of the rules' code.
// What goes out: its numbers in the plan's table, and the place after them.
#![tactic(auto)]

ghost use Rattle.std.specs.Prelude.{◌≡◌, ◌+◌, ◌%◌, ◌^◌, ◌≤◌, length, slice_index};
ghost use Rattle.section_items.specs.Items.{items_of, rules_up_to, bit_of, mask_up_to};
ghost use Rattle.section_items.specs.Sections.{items_from, item_at, width_of, numbers_of, Few, Put};

use settled::{OR, PRESENT, RULE, RULED};

// The sections that items give numbers to.
#[derive(Clone, Copy)]
pub enum Section {
    Ports,
    Memories,
    Groups,
    Rules,
}

// How many rules begin before the next group.
fn rules(items: &[u32]) -> u32
    requires { Few items.now }
    ensures { result ≡ rules_up_to (items_of items.now) }
{
    let mut k = 0;
    for i in 0..items.len() / 6 {
        match items[6 * i] {
            OR => return k,
            RULE => k += 1,
            _ => {}
        }
    }
    k
}

// The bit of a port in a mask, where an item lists it as wanted.
fn bit(op: u32, port: u32, listed: u32, wanted: u32) -> u32
    ensures { result ≡ bit_of wanted (record { op = op; a = port; b = listed }) % 2 ^ 32 }
{
    // a port of a greater number has no bit in a mask
    if op == PRESENT && listed == wanted && port < plan::MASK_BITS {
        1 << port
    } else {
        0
    }
}

// The mask of the ports that a rule lists as wanted, up to its end.
fn mask(items: &[u32], wanted: u32) -> u32
    requires { Few items.now }
    ensures { result ≡ mask_up_to wanted (items_of items.now) % 2 ^ 32 }
{
    let mut sum = 0u32;
    for i in 0..items.len() / 6 {
        let at = 6 * i;
        if items[at] == RULED {
            return sum;
        }
        sum = sum.wrapping_add(bit(items[at], items[at + 2], items[at + 3], wanted));
    }
    sum
}

// The length of a rule's code, 0 where none is known.
fn length_at(lengths: &[u32], k: usize) -> u32
    ensures { result ≡ slice_index lengths.now k }
{
    lengths.get(k).copied().unwrap_or(0)
}

// Puts what the item at number i gives its section, with k items of the section before it; the place after it.
pub fn put_item(
    section: Section,
    items: &[u32],
    i: usize,
    lengths: &[u32],
    k: usize,
    plan: &mut [u32],
    at: usize,
) -> usize
    requires few { Few items.now }
    requires i_bound { (i + 6 ≤ length items.now) × (at + width_of section ≤ length plan.old) }
    ensures { Put plan.old at (numbers_of section lengths.now k (item_at items.now i) (items_from items.now (i + 6))) result plan.new }
{
    let after = &items[i + 6..];
    match section {
        Section::Ports => {
            plan[at] = items[i + 2];
            at + 1
        }
        Section::Memories => {
            plan[at] = items[i + 2];
            plan[at + 1] = items[i + 3];
            at + 2
        }
        Section::Groups => {
            plan[at] = rules(after);
            at + 1
        }
        Section::Rules => {
            plan[at] = mask(after, 1);
            plan[at + 1] = mask(after, 0);
            plan[at + 2] = length_at(lengths, k);
            at + 3
        }
    }
}
