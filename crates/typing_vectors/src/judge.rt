// Judges a code before it is evaluated: a code that is not one type that keeps the rules is told apart.
ghost use Rattle.std.specs.Prelude.{◌≡◌, true, List, [], ◌∷◌, ◌++◌, ℕ, ◌+◌, ◌≤◌, ◌<◌, IfSome, length, get_or, set};
ghost use Rattle.type_value.specs.Terms.{Term, TypeOf};
ghost use Rattle.type_value.specs.Walk.{TermStands};
ghost use Rattle.typing.specs.Solved.{Coded};
ghost use Rattle.typing_vectors.specs.Judged.{Judged, Held};

// The mark of a node with no operand, where it keeps the rules.
fn leaf(node: u32, unknowns: usize) -> Option<u32>
    ensures { IfSome result (λ m. (t : Term) × Judged unknowns t m (node ∷ [])) }
{
    let argument = node / 8;
    match node % 8 {
        0 if argument <= 65535 => Some(0),
        1 if (argument as usize) < unknowns => Some(1),
        _ => None,
    }
}

// A log's argument holds no log; a floor's or a ceil's two, of which none is left.
fn unary(op: u32, m: u32) -> Option<u32>
    requires { (2 ≤ op) × (op < 5) }
    ensures { IfSome result (λ j. (n : ℕ) (t : Term) (ks : List ℕ) → Judged n t m ks → (s : Term) × Judged n s j (ks ++ (op ∷ []))) }
{
    match op {
        2 if m <= 1 => Some(m + 2),
        2 => None,
        _ if m <= 5 => Some(m % 2),
        _ => None,
    }
}

// The logs of both stand together; no port stands in the right operand of a minus.
fn binary(op: u32, m: u32, k: u32) -> Option<u32>
    requires { (5 ≤ op) × (op < 8) }
    ensures { IfSome result (λ both. (n : ℕ) (s t : Term) (js ks : List ℕ) → Judged n s m js → Judged n t k ks → (u : Term) × Judged n u both (js ++ (ks ++ (op ∷ [])))) }
{
    if 5 < m || 5 < k {
        return None;
    }
    match op {
        6 if k % 2 == 1 => None,
        6 => Some(m + k),
        _ => Some(m + k - (m % 2 + k % 2) / 2),
    }
}

fn push(marks: &mut [u32; 64], k: usize, m: u32) -> Option<usize>
    requires { k ≤ 64 }
    ensures value { IfSome result (λ n. (n ≡ k + 1) × (k < 64) × (marks.new ≡ set marks.old k m)) }
    ensures marks_len { length marks.old ≡ 64 → length marks.new ≡ 64 }
{
    if k == 64 {
        return None;
    }
    marks[k] = m;
    Some(k + 1)
}

// One node more: how many types wait then, where the node keeps the rules. A switch on numbers: the code may be no type's.
fn step(node: u32, unknowns: usize, marks: &mut [u32; 64], n: usize) -> Option<usize>
    requires { (n ≤ 64) × (length marks.old ≡ 64) }
    ensures held { IfSome result (λ r. (r ≤ 64) × ((ks : List ℕ) → Held unknowns marks.old n ks → Held unknowns marks.new r (ks ++ (node ∷ [])))) }
    ensures marks_len { length marks.new ≡ 64 }
{
    match node {
        2 | 3 | 4 => {
            if n == 0 {
                return None;
            }
            let mark = unary(node, marks[n - 1])?;
            push(marks, n - 1, mark)
        }
        5 | 6 | 7 => {
            if n < 2 {
                return None;
            }
            let mark = binary(node, marks[n - 2], marks[n - 1])?;
            push(marks, n - 2, mark)
        }
        _ => {
            let mark = leaf(node, unknowns)?;
            push(marks, n, mark)
        }
    }
}

// The part of the code is that of one type that keeps the rules.
pub fn sound(code: &[u32], from: usize, end: usize, unknowns: usize) -> bool
    ensures { result ≡ true → (t : Term) × TermStands t code.now from end × TypeOf unknowns t }
{
    if code.len() < end || end < from || 64 < end - from {
        return false;
    }
    let mut marks = [0u32; 64];
    let mut n = 0;
    for i in from..end {
        match step(code[i], unknowns, &mut marks, n) {
            Some(r) => n = r,
            None => return false,
        }
    }
    n == 1 && marks[0] < 6
}

// Every unknown has a type that keeps the rules.
pub fn all_sound(code: &[u32], starts: &[usize], ends: &[usize]) -> bool
    requires { length starts.now ≡ length ends.now }
    ensures { result ≡ true → (ts : List Term) × Coded ts code.now starts.now ends.now }
{
    for i in 0..starts.len() {
        if !sound(code, starts[i], ends[i], starts.len()) {
            return false;
        }
    }
    true
}

pub fn small(ws: &[u32]) -> bool
    ensures { result ≡ true → (i : ℕ) → get_or ws.now i 0 ≤ 65535 }
{
    ws.iter().all(|w| *w <= 65535)
}
