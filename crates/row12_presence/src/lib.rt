// Row 12 of document 01: what a rule reads and assigns is present in it, and an output is assigned once.
// What comes in: the settled items of an actor, six numbers each. What goes out: the earliest place of an input read or an
// output assigned without `.p.1` in its rule, or of an output assigned twice in a rule or in two groups.
#![tactic(auto)]

ghost use Rattle.std.specs.Prelude.{◌≡◌, ◌*◌, ◌≤◌, length, take, None};
ghost use Rattle.row12_presence.specs.Walk.{has, with_port, faulty, next_of, begin, walk};

use plan::MASK_BITS;
use settled::{ASSIGN, OR, PRESENT, READ, RULED};

// Sets of ports, each a mask with bit k for port k: those that this rule lists with `.p.1`, the outputs that it has assigned,
// those assigned so far in all groups, and those assigned in earlier groups.
#[derive(Clone, Copy, Default)]
struct Met {
    required: u32,
    assigned: u32,
    everywhere: u32,
    earlier: u32,
}

// Whether a set has a port.
#[tactic(auto, unfolding(crate::specs::Walk::has))]
fn has_port(set: u32, port: u32) -> bool
    ensures { result ≡ has set port }
{
    plan::bit(set, port) == 1
}

// A set with a port more, where the mask has a bit for it: a port of a greater number, which no text has, is in no set.
#[tactic(auto, using(crate::proofs::Turns::port_inside, crate::proofs::Turns::port_past))]
fn with_port(set: u32, port: u32) -> u32
    ensures { result ≡ with_port set port }
{
    if port < MASK_BITS {
        set | (1u32 << port)
    } else {
        set
    }
}

// Whether an item is at fault.
#[tactic(auto, unfolding(crate::specs::Walk::faulty))]
fn at_fault(op: u32, port: u32, met: Met) -> bool
    ensures { result ≡ faulty met op port }
{
    match op {
        READ => !has_port(met.required, port),
        ASSIGN => {
            !has_port(met.required, port)
                || has_port(met.assigned, port)
                || has_port(met.earlier, port)
        }
        _ => false,
    }
}

// The sets after an item; an entry of a rule's list is listed as present by 1.
#[tactic(auto, unfolding(crate::specs::Walk::next_of, crate::specs::Walk::listing, crate::specs::Walk::assigning, crate::specs::Walk::ending, crate::specs::Walk::grouping))]
fn met_after(op: u32, port: u32, listed: u32, met: Met) -> Met
    ensures { result ≡ next_of met op port listed }
{
    match op {
        PRESENT if listed == 1 => Met {
            required: with_port(met.required, port),
            ..met
        },
        ASSIGN => Met {
            assigned: with_port(met.assigned, port),
            everywhere: with_port(met.everywhere, port),
            ..met
        },
        RULED => Met {
            required: 0,
            assigned: 0,
            ..met
        },
        OR => Met {
            earlier: met.everywhere,
            ..met
        },
        _ => met,
    }
}

// The earliest place of a faulty item among so many.
pub fn fault(items: &[u32], many: usize) -> Option<u32>
    requires { 6 * many ≤ length items.now }
    ensures { result ≡ walk begin (take (6 * many) items.now) None }
{
    let mut met = Met::default();
    let mut first = None;
    for i in 0..many {
        let op = items[6 * i];
        let port = items[6 * i + 2];
        if at_fault(op, port, met) {
            first = words::earlier(items[6 * i + 1], first);
        }
        met = met_after(op, port, items[6 * i + 3], met);
    }
    first
}
