// Row 6 of document 01: the names of an actor, read off its tape and its text.
// What comes in: the text, and the tape that holds its actor. What goes out: the earliest place of a name that is
// unknown, declared twice, of the wrong kind or twice in a list.
#![tactic(auto, unfolding(crate::specs::Walk::test))]

ghost use Rattle.std.specs.Prelude.{◌≡◌, List, ◌*◌, ◌≤◌, ◌<◌, length};
ghost use Rattle.language.specs.Text.{earliest};
ghost use Rattle.language.specs.Words.{Word};
ghost use Rattle.language.specs.Tree.{Actor};
ghost use Rattle.language.specs.Names.{name_faults};
ghost use Rattle.words.specs.Found.{place_told};
ghost use Rattle.tape.specs.Row.{Tells};
ghost use Rattle.row06_names.specs.Walk.{faulty, faults_at};

use tape::{
    ASSIGN, Class, DECLARED, END, ENVIRONMENT, MEMORY, PORT, PRESENT, READ, RULED, SIGNED, VAL,
    VALUE, name, said,
};

// Whether item i is at fault: this rule's items stand from `rule` on, the `let`s in force from `lets` on.
fn at_fault(text: &[u8], tape: &[u32], many: usize, rule: usize, lets: usize, i: usize) -> bool
    requires { (3 * many ≤ length tape.now) × (i < many) × (rule ≤ i) × (lets ≤ i) }
    ensures { result ≡ faulty text.now tape.now many rule lets i }
{
    let called = name(text, tape[3 * i + 1] as usize);
    let anywhere = |class| said(text, tape, 0, many, class, called);
    let since = |from, class| said(text, tape, from, i, class, called);
    match tape[3 * i] {
        SIGNED => since(0, Class::Signed) || !anywhere(Class::Declared),
        DECLARED => !anywhere(Class::Signed) || since(0, Class::Taken),
        MEMORY => since(0, Class::Taken),
        ENVIRONMENT | VALUE => anywhere(Class::Taken),
        PORT => !anywhere(Class::Declared),
        PRESENT => !anywhere(Class::Declared) || since(rule, Class::Present),
        READ => !anywhere(Class::Input) && !since(lets, Class::Val),
        ASSIGN => !anywhere(Class::Output),
        VAL => since(lets, Class::Val) || anywhere(Class::Taken),
        _ => false,
    }
}

// The earliest place of a faulty item among so many.
fn walk(text: &[u8], tape: &[u32], many: usize) -> Option<u32>
    requires { 3 * many ≤ length tape.now }
    ensures { result ≡ place_told (earliest (faults_at text.now tape.now many many)) }
{
    let mut first = None;
    let mut rule = 0;
    let mut lets = 0;
    for i in 0..many {
        if at_fault(text, tape, many, rule, lets, i) {
            first = words::earlier(tape[3 * i + 1], first);
        }
        let rule_ends = tape[3 * i] == RULED;
        let lets_end = tape[3 * i] == END;
        if rule_ends {
            rule = i + 1;
        }
        if lets_end {
            lets = i + 1;
        }
    }
    first
}

// The earliest place of row 6, where the tape holds the actor of the text.
pub fn fault(text: &[u8], tape: &[u32], n: usize) -> Option<u32>
    requires { n ≤ length tape.now }
    ensures { (ws : List Word) (a : Actor) → Tells text.now tape.now n ws a → result ≡ place_told (earliest (name_faults a)) }
{
    walk(text, tape, n / 3)
}
