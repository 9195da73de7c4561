// Facts about lists and tables that several crates use, each said once.
// What comes in: nothing. What goes out: definitions and laws.
// Pure: nothing here runs.
#![tactic(auto)]
