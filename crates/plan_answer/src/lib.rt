// The last step of reading: the plan is put together, or there is no room for it (row 13 of document 01).
// What comes in: settled items, the code of the rules with the length of each, the lent table.
// What goes out: the plan's length or a refusal, as a user gets it; the table with the plan at its start, or as it stood.
#![tactic(auto)]

ghost use Rattle.language.specs.Limits.{limits};
ghost use Rattle.settled.specs.Form.{most_settled};
ghost use Rattle.std.specs.Prelude.{◌≡◌, ◌*◌, ◌≤◌, length};
ghost use Rattle.row13_plan.specs.Made.{table_after as table_with};
ghost use Rattle.plan_answer.specs.Answered.{sums, made_of, plan_from};

use language::{Refusal, Text};
use plan::place;

// The plan's length, or why there is no plan.
pub type Answer = Result<u32, Refusal>;

// The lengths of the rules' code together.
fn total(lengths: &[u32]) -> usize
    requires { length lengths.now ≤ 4294967296 }
    ensures { result ≡ sums lengths.now }
{
    let mut sum = 0;
    for n in lengths {
        sum += place(*n);
    }
    sum
}

// The plan of an actor with no fault: its length, or row 13.
pub fn made(items: &[u32], many: usize, code: &[u32], lengths: &[u32], plan: &mut [u32]) -> Answer
    requires { (many ≤ most_settled) × (6 * many ≤ length items.now) × (length lengths.now ≤ limits.rules) × (sums lengths.now ≤ length code.now) × (length code.now ≤ 4 * most_settled) }
    ensures answer { result ≡ made_of (plan_from items.now many code.now lengths.now) plan.old }
    ensures table { plan.new ≡ table_with (plan_from items.now many code.now lengths.now) plan.old }
{
    let no_room = Refusal {
        row: 13,
        text: Text::Actor,
        place: 0,
    };
    let code = &code[..total(lengths)];
    row13_plan::made(&items[..6 * many], code, lengths, plan).ok_or(no_room)
}
