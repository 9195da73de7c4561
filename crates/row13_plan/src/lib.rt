// The plan of an accepted actor, written into a lent table.
// What comes in: the settled items of the actor, six numbers each, and its rules' code with their lengths. What goes out:
// how many numbers the plan has, with the plan at the table's start; or that the table is too short, and the table as it stood.
#![tactic(auto)]

ghost use Rattle.settled.specs.Form.{most_settled};
ghost use Rattle.std.specs.Prelude.{◌≡◌, ◌+◌, ◌*◌, ◌≤◌, ◌∷◌, length, take};
ghost use Rattle.std.proofs.lemmas.List.Edits.{sets};
ghost use Rattle.section_items.specs.Items.{items_of, counted};
ghost use Rattle.section_items.specs.Sections.{items_from, mark_of, section_of, Few, Put};
ghost use Rattle.row13_plan.specs.Made.{plan_in, answer_of, table_after};

use section_items::{Section, put_item};
use settled::{MEMORY, OR, RULE, SIGNED};

// The operation of a section's items.
fn mark(section: Section) -> u32
    ensures { result ≡ mark_of section }
{
    match section {
        Section::Ports => SIGNED,
        Section::Memories => MEMORY,
        Section::Groups => OR,
        Section::Rules => RULE,
    }
}

// How many items have an operation.
fn count(items: &[u32], op: u32) -> usize
    requires { Few items.now }
    ensures { (result ≡ counted op (items_of items.now)) × (result ≤ most_settled) }
{
    let mut k = 0;
    for i in 0..items.len() / 6 {
        if items[6 * i] == op {
            k += 1;
        }
    }
    k
}

// Puts a section after its count; the place after it.
fn put_section(
    section: Section,
    items: &[u32],
    lengths: &[u32],
    plan: &mut [u32],
    from: usize,
) -> usize
    requires few { Few items.now }
    requires n_in_bounds { from + length (section_of section lengths.now (items_of items.now)) ≤ length plan.old }
    ensures { Put plan.old from (section_of section lengths.now (items_of items.now)) result plan.new }
{
    let op = mark(section);
    plan[from] = count(items, op) as u32;
    let mut at = from + 1;
    let mut k = 0;
    for i in 0..items.len() / 6 {
        if items[6 * i] == op {
            at = put_item(section, items, 6 * i, lengths, k, plan, at);
            k += 1;
        }
    }
    at
}

// Puts the code after its count.
fn put_code(code: &[u32], plan: &mut [u32], from: usize)
    requires { (length code.now ≤ 8 * most_settled) × (from + 1 + length code.now ≤ length plan.old) }
    ensures { plan.new ≡ sets plan.old from (length code.now ∷ code.now) }
{
    plan[from] = code.len() as u32;
    plan[from + 1..from + 1 + code.len()].copy_from_slice(code);
}

// How many numbers the plan has, where the table has room for them. The room is tested first, so that a table that is too short
// stays as it stood.
pub fn made(items: &[u32], code: &[u32], lengths: &[u32], plan: &mut [u32]) -> Option<u32>
    requires few { Few items.now }
    requires code_few { length code.now ≤ 8 * most_settled }
    ensures answer { result ≡ answer_of (plan_in (items_of items.now) code.now lengths.now) plan.old }
    ensures table { plan.new ≡ table_after (plan_in (items_of items.now) code.now lengths.now) plan.old }
{
    let ports = count(items, SIGNED);
    let memories = count(items, MEMORY);
    let groups = count(items, OR);
    let rules = count(items, RULE);
    let whole = 6 + ports + 2 * memories + groups + 3 * rules + code.len();
    if plan.len() < whole {
        return None;
    }
    plan[0] = 1;
    let a = put_section(Section::Ports, items, lengths, plan, 1);
    let b = put_section(Section::Memories, items, lengths, plan, a);
    let c = put_section(Section::Groups, items, lengths, plan, b);
    let d = put_section(Section::Rules, items, lengths, plan, c);
    put_code(code, plan, d);
    Some(whole as u32)
}
