// The first fault of each text of a list, by rows 1 to 5 of document 01, or else its tape.
// What comes in, on standard input: byte count, newline and bytes of an actor, the same of its bindings, and so on.
// What goes out: for each pair the row and the place of its fault in rows 2 to 4, or 0, kinds and places of the words, a sized
// constant's value after it; then those of row 5 (or 1), or 0 and the tape.
#![tactic(auto)]

ghost use Rattle.std.specs.Prelude.{◌+◌, ◌*◌, ◌≤◌, ◌<◌, length};

// The standard streams, as file descriptors.
const STDIN: i32 = 0;

const STDOUT: i32 = 1;

// An actor's text has at most a word for each byte: four numbers each in the table, three on the tape.
const BYTES: usize = language::Actor::BYTES as usize;

const NUMBERS: usize = tape::LENGTH;

// What is kept of a count before its next digit: more than a text is long.
const COUNTED: usize = 65536;

#[derive(Clone, Copy)]
struct Numeral {
    value: usize,
    next: usize,
}

fn say(n: u32, end: &[u8]) {
    io::print_decimal(STDOUT, u64::from(n));
    io::write_all(STDOUT, end);
}

// A number and the end of its line.
fn count(all: &[u8], from: usize) -> Numeral
    requires { from < length all.now }
    ensures { (from < result.next) × (result.next ≤ length all.now) }
{
    let mut value = 0;
    for i in from..all.len() {
        match all[i] {
            b'\n' => return Numeral { value, next: i + 1 },
            b => value = (value % COUNTED) * 10 + usize::from(b % 16),
        }
    }
    Numeral {
        value,
        next: all.len(),
    }
}

// The end of n bytes, or of all.
fn part_end(len: usize, from: usize, n: usize) -> usize
    requires { from ≤ len }
    ensures { (from ≤ result) × (result ≤ len) }
{
    from + n.min(len - from)
}

// The value of a sized constant.
fn say_constant(actor: &[u8], at: u32) {
    match sized_constants::constant(actor, at as usize) {
        Some(x) => {
            io::print_decimal(STDOUT, x);
            io::write_all(STDOUT, b" ");
        }
        None => {
            io::write_all(STDOUT, b"big ");
        }
    }
}

// The words, if none is left out.
fn show(actor: &[u8], table: &[u32], n: usize)
    requires { 4 * n ≤ length table.now }
{
    say(0, b" ");
    for i in 0..n {
        say(table[4 * i], b" ");
        say(table[4 * i + 1], b" ");
        if table[4 * i] == signs::kinds::DIGITS {
            say_constant(actor, table[4 * i + 1]);
        }
    }
    io::write_all(STDOUT, b"\n");
}

// The numbers of a tape.
fn show_tape(tape: &syntax::Tape, length: u32) {
    say(0, b" ");
    for &number in &tape[..NUMBERS.min(length as usize)] {
        say(number, b" ");
    }
    io::write_all(STDOUT, b"\n");
}

fn fault_at(row: u32, place: u32) {
    say(row, b" ");
    say(place, b"\n");
}

// The actor's tape, or its fault.
fn read(actor: &[u8]) {
    let mut tape = [0u32; NUMBERS];
    match syntax::read(actor, &mut tape) {
        Ok(n) => show_tape(&tape, n),
        Err(why) => fault_at(why.row, why.place),
    }
}

fn told(actor: &[u8], table: &[u32], words: u32) {
    let n = words as usize;
    if table.len() / 4 < n {
        return;
    }
    if let Some(p) = words::left_out(table, n) {
        return fault_at(4, p);
    }
    show(actor, table, n);
    read(actor);
}

fn actor_fault(actor: &[u8], table: &mut [u32]) {
    match words::words(actor, table) {
        Ok(n) => told(actor, table, n),
        Err(words::Fault::Bad(p)) => fault_at(3, p),
        Err(words::Fault::NoRoom) => read(actor),
    }
}

fn fault(actor: &[u8], bindings: &[u8], table: &mut [u32]) {
    if BYTES < actor.len() {
        return read(actor);
    }
    match bindings::read(bindings, table) {
        Ok(_) => actor_fault(actor, table),
        Err(bindings::Fault::Wrong(p)) => fault_at(2, p),
        Err(bindings::Fault::NoRoom) => fault_at(1, language::Bindings::BYTES),
    }
}

// One actor with its bindings; the place after them.
fn both(all: &[u8], at: usize, table: &mut [u32]) -> usize
    requires { at < length all.now }
    ensures { (at < result) × (result ≤ length all.now) }
{
    let a = count(all, at);
    let from = a.next;
    let end = part_end(all.len(), from, a.value);
    if all.len() <= end {
        return end;
    }
    let b = count(all, end);
    let start = b.next;
    let stop = part_end(all.len(), start, b.value);
    fault(&all[from..end], &all[start..stop], table);
    stop
}

fn run(all: &[u8]) {
    let mut table = [0u32; 4 * BYTES];
    let mut at = 0;
    // no `for`: a turn goes on by the length of what it read
    while at < all.len() {
        at = both(all, at, &mut table);
    }
}

fn main() {
    let mut buffer = io::large_buffer();
    let n = io::read_full(STDIN, &mut buffer);
    run(&buffer[..n]);
}
