// From an actor's text to the tape (rows 1, 3, 4 and 5 of document 01).
// What comes in: the text and a lent tape. What goes out: the tape holds the actor as items of three numbers,
// an operation, a place and a value; or the row that refuses the text and the place, and the tape is as it stood.
#![tactic(auto)]

mod reading;

pub use readers::Tape;
pub use reading::read;
