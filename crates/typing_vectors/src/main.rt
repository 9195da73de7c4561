// Runs the table of types and systems that tests/typing_vectors.py makes through `typing`.
// What comes in: standard input, fields of six digits; each code is judged first, so that what `typing` promises of a type is told of it.
// What goes out: for a type its width and bit position, for a system whether it has widths, and these.
#![tactic(auto)]

mod judge;

ghost use Rattle.std.specs.Prelude.{◌≡◌, ◌+◌, ◌^◌, ◌≤◌, ◌<◌, length};

// A byte that is no digit counts as 0.
fn digit(b: u8) -> u32
    ensures { result ≤ 9 }
{
    if b.is_ascii_digit() {
        u32::from(b - b'0')
    } else {
        0
    }
}

// Field k of the text; 0 where there is none.
fn field(s: &[u8], k: usize) -> u32
    ensures { result ≤ 999999 }
{
    if 20000 < k || s.len() < k * 7 + 6 {
        return 0;
    }
    let mut n = 0;
    for i in 0..6 {
        n = n * 10 + digit(s[k * 7 + i]);
    }
    n
}

// The fields from field k on, each as `stored` makes it.
fn numbers<T: Copy, F: Fn(u32) -> T>(s: &[u8], k: usize, to: &mut [T], stored: F)
    requires places { k + length to.old < 2 ^ 64 }
    requires any { F.IsAlwaysCallable stored }
{
    for (i, x) in to.iter_mut().enumerate() {
        *x = stored(field(s, k + i));
    }
}

fn print_position(p: Option<u64>) {
    match p {
        Some(i) => {
            io::print_decimal(1, i);
        }
        None => {
            io::write_all(1, b"outside");
        }
    }
}

fn print_type(code: &[u32], long: usize, ws: &[u32]) {
    if judge::sound(code, 0, long, ws.len()) && judge::small(ws) {
        io::print_decimal(1, type_value::width_at(code, 0, long, ws));
        io::write_all(1, b" ");
        print_position(type_value::position_at(code, 0, long, ws));
    }
    io::write_all(1, b"\n");
}

fn print_widths(ws: &[u32]) {
    for w in ws {
        io::write_all(1, b" ");
        io::print_decimal(1, u64::from(*w));
    }
    io::write_all(1, b"\n");
}

// A system whose codes break a rule prints nothing.
fn print_system(code: &[u32], starts: &[usize], ends: &[usize], ws: &mut [u32])
    requires { (length starts.now ≡ length ends.now) × (length ws.old ≡ length starts.now) }
{
    if judge::all_sound(code, starts, ends) {
        io::print_decimal(1, u64::from(typing::solve(code, starts, ends, ws)));
        print_widths(ws);
    }
}

// The row at field k, of n unknowns.
fn type_row(s: &[u8], k: usize, n: usize, long: usize, code: &mut [u32], ws: &mut [u32])
    requires { (k < 10000) × (n ≤ 24) × (n ≤ length ws.old) }
{
    numbers(s, k + 3, &mut ws[..n], |w| w);
    numbers(s, k + 3 + n, code, |node| node);
    print_type(code, long, &ws[..n]);
}

fn system_row(
    s: &[u8],
    k: usize,
    n: usize,
    code: &mut [u32],
    starts: &mut [usize],
    ends: &mut [usize],
    ws: &mut [u32],
)
    requires k_bound { (k < 10000) × (n ≤ 24) }
    requires n_in_bounds { (n ≤ length starts.old) × (n ≤ length ends.old) × (n ≤ length ws.old) }
{
    numbers(s, k + 3, starts, |place| place as usize);
    numbers(s, k + 3 + n, ends, |place| place as usize);
    numbers(s, k + 3 + n + n, code, |node| node);
    print_system(code, &starts[..n], &ends[..n], &mut ws[..n]);
}

// The row at field k: where the next one starts, or None after the last.
fn row(s: &[u8], k: usize) -> Option<usize>
    requires { k < 10000 }
{
    let mut code = [0u32; 128];
    let mut starts = [0usize; 24];
    let mut ends = [0usize; 24];
    let mut ws = [0u32; 24];
    let kind = field(s, k);
    let n = field(s, k + 1) as usize;
    let long = field(s, k + 2) as usize;
    if 24 < n {
        return None;
    }
    match kind {
        0 => {
            type_row(s, k, n, long, &mut code, &mut ws);
            Some(k + 3 + n + long)
        }
        1 => {
            system_row(s, k, n, &mut code, &mut starts, &mut ends, &mut ws);
            Some(k + 3 + n + n + long)
        }
        _ => None,
    }
}

fn main() {
    let mut bytes = io::large_buffer();
    let got = io::read_full(0, &mut bytes);
    let s = &bytes[..got];
    let mut k = 0;
    for _ in 0..1000 {
        match row(s, k) {
            Some(next) if next < 10000 => k = next,
            _ => return,
        }
    }
}
