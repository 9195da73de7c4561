// The bindings text, read into a lent table of its lines (row 2 of document 01).
// What comes in: the text and a table. What goes out: how many lines bind widths and values, with three numbers in the
// table for each (its name's place and length, its width or value), or the first byte at which no right text continues.
#![tactic(auto)]

mod bound;

ghost use Rattle.language.specs.Limits.{limits};
ghost use Rattle.std.specs.Prelude.{◌≡◌, [], ◌+◌, ◌*◌, ◌≤◌, ◌<◌, length, drop};
ghost use Rattle.language.specs.Bindings.{lines as lines_of, section as section_of};
ghost use Rattle.binding_numbers.specs.Steps.{Greatest};
ghost use Rattle.binding_names.specs.Names.{Lent};
ghost use Rattle.bindings.specs.Table.{answer_of, table_after, most_numbers};
ghost use Rattle.bindings.specs.declared.Fault.TheVariants.{Wrong};
ghost use Rattle.bindings.specs.Steps.{ReadsLine, ReadsLines, WidthsRead};

use binding_names::name;
use binding_numbers::{Lost, Step, Went, blank_number, number_line};
pub use bound::Bound;

// How many lines of the table bind widths, and how many after them values.
#[derive(Clone, Copy)]
pub struct Lines {
    pub widths: usize,
    pub values: usize,
}

// Why a text is not read.
#[derive(Clone, Copy)]
pub enum Fault {
    // The first byte at which no right text continues.
    Wrong(u32),
    // A text over its limit or a table under so many numbers as the most lines have: nothing is read.
    NoRoom,
}

// What reading the whole text gives.
pub type Answer = Result<Lines, Fault>;

const WIDTH: usize = language::Plan::WIDTH as usize;

const VALUE: usize = language::Type::NUMBER as usize;

const LINES: usize = language::Bindings::LINES as usize;

// Three numbers for each line of a section, and two sections. Numbers and no structs: the clauses name the layout (`table_of`).
const SECTION: usize = 3 * LINES;

pub const NUMBERS: usize = 2 * SECTION;

const BYTES: usize = language::Bindings::BYTES as usize;

// Reads line i and stores it. What goes out: the place after it, and the number that it binds.
fn line(text: &[u8], table: &mut [u32], i: usize, from: usize, most: usize) -> Step
    requires lent { Lent text.now table.old i from }
    requires i_lt_lines { i < limits.lines }
    requires greatest { Greatest most }
    ensures { ReadsLine text.now most i from table.old result table.new }
{
    let called = name(text, table, i, from)?;
    let bound = blank_number(text, called.next, most)?;
    let numbers = [from as u32, called.number as u32, bound.number as u32];
    table[3 * i..3 * i + 3].copy_from_slice(&numbers);
    Ok(bound)
}

// Reads k lines and stores them.
fn each_line(text: &[u8], table: &mut [u32], k: usize, from: usize, most: usize) -> Step
    requires lent { Lent text.now table.old 0 from }
    requires k_le_lines { (k ≤ limits.lines) × Greatest most }
    ensures { ReadsLines text.now (lines_of (length text.now) most k [] (drop from text.now)) result table.new }
{
    let mut at = from;
    for i in 0..k {
        at = line(text, table, i, at, most)?.next;
    }
    Ok(Went {
        next: at,
        number: k,
    })
}

// A count and that many lines.
fn section(text: &[u8], table: &mut [u32], from: usize, most: usize) -> Step
    requires lent { Lent text.now table.old 0 from }
    requires greatest { Greatest most }
    ensures { ReadsLines text.now (section_of (length text.now) most (drop from text.now)) result table.new }
{
    let count = number_line(text, from, LINES)?;
    each_line(text, table, count.number, count.next, most)
}

// A place of a text within its limit, as the whole answers it.
fn wrong(lost: Lost) -> Fault
    requires { lost.at ≤ limits.bindings }
    ensures { result ≡ Wrong lost.at }
{
    Fault::Wrong(lost.at as u32)
}

// Reads the section of values after that of widths, and copies both when the whole text is right.
#[tactic(auto, using(crate::proofs::Rows::place_told, crate::proofs::Rows::tail_told, crate::proofs::Rows::tail_table, crate::proofs::Rows::both_told, crate::proofs::Rows::both_table))]
fn values_after(text: &[u8], table: &mut [u32], widths: &[u32], w: usize, at: usize) -> Answer
    requires widths_read { WidthsRead text.now widths.now w at }
    requires text_len_bound { (length text.now ≤ limits.bindings) × (most_numbers ≤ length table.old) }
    ensures answer { result ≡ answer_of text.now table.old }
    ensures table { table.new ≡ table_after text.now table.old }
{
    let mut values = [0u32; SECTION];
    let read = section(text, &mut values, at, VALUE).map_err(wrong)?;
    if read.next < text.len() {
        return Err(Fault::Wrong(read.next as u32));
    }
    let lines = Lines {
        widths: w,
        values: read.number,
    };
    let (first, rest) = table.split_at_mut(3 * lines.widths);
    first.copy_from_slice(&widths[..3 * lines.widths]);
    rest[..3 * lines.values].copy_from_slice(&values[..3 * lines.values]);
    Ok(lines)
}

// Reads both sections apart and copies them when the whole text is right, so that a refusal leaves the table as it stood.
pub fn read(text: &[u8], table: &mut [u32]) -> Answer
    ensures answer { result ≡ answer_of text.now table.old }
    ensures table { table.new ≡ table_after text.now table.old }
{
    if BYTES < text.len() || table.len() < NUMBERS {
        return Err(Fault::NoRoom);
    }
    let mut widths = [0u32; SECTION];
    let read = section(text, &mut widths, 0, WIDTH).map_err(wrong)?;
    values_after(text, table, &widths, read.number, read.next)
}
