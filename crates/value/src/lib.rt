// The operators on values: what each gives, and how wide it is (document 01, "Values").
// What comes in: numbers below 2 to the power of their widths, widths up to 64.
// What goes out: one number for each, the one that `language`'s specs/Values.antt defines.
#![tactic(auto)]

mod operators;

pub use operators::{binary, binary_width, unary, unary_width};
