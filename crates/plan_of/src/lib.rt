// The plan of an accepted actor, as a definition; that rows 11 and 13 over its settled items find 01's faults and make this plan.
// What comes in: an actor that has passed the rows before. What goes out: the plan is sound, it is short, and running it is
// what the text means. Pure: nothing here runs.
#![tactic(auto)]
