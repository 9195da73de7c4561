// The bytes of a text at the places that its tree keeps: they give back every name and every sized constant.
// What comes in: nothing, since it is pure and nothing here runs.
// What goes out: the laws by which rows go back from a tape to the text.
#![tactic(auto)]
