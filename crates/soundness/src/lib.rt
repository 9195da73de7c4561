// Whether any list of numbers is a sound plan: its sections, and then the code of its rules.
// What comes in: a list of 32-bit numbers, of any length.
// What goes out: whether it is sound.
#![tactic(auto)]

mod rules;
mod steps;

pub use rules::sound;
