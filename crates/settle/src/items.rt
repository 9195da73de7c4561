// What an item does, by its operation and value alone.
ghost use Rattle.std.specs.Prelude.{◌≡◌};
ghost use Rattle.item_writes.specs.Walk.{takes as takes_of};

use tape::{BIT, DECLARED, MEMORY, RANGE, TYPED, VAL};

// How many of the types that wait an item takes.
#[tactic(auto, unfolding(item_writes::specs::Walk::takes, item_writes::specs::Walk::when))]
pub fn takes(op: u32, value: u32) -> u32
    ensures { result ≡ takes_of op value }
{
    match op {
        TYPED | BIT => 1,
        RANGE => 2,
        VAL | MEMORY | DECLARED => value % 2,
        _ => 0,
    }
}
