// Reading for programs in other languages: what the script of tests/plans/ links, to print plans.
// What comes in: two texts and a table as a pointer and a length each, and a pointer to two numbers.
// What goes out: `tipi::read`'s answer as three numbers, its row returned, its place and text told, and the plan in the table.
#![tactic(auto)]

ghost use Rattle.std.specs.Prelude.{◌≡◌};
ghost use Rattle.tipi_abi.specs.Numbers.{Numbered};

#[unsafe(no_mangle)]
pub extern "C" fn tipi_read(
    text: &[u8],
    bindings: &[u8],
    plan: &mut [u32],
    told: &mut [u32; 2],
) -> u32
    ensures { Numbered text.now bindings.now result plan.old plan.new told.old told.new }
{
    match tipi::read(text, bindings, plan) {
        Ok(length) => {
            told[0] = length;
            told[1] = 0;
            0
        }
        Err(why) => {
            told[0] = why.place;
            told[1] = why.text as u32;
            why.row
        }
    }
}
