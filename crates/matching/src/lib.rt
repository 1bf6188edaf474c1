// Whether a term in cells is an instance of a left side, and the instance of a right side, put into a buffer. A cell is a node's byte, and `CELL` times the
// size of its subterm where that is known to be normal. Entry x of `binds` is the place plus one of the term for the variable x, or 0.
// Kept: a number and 0 for none in `binds`. `Option<u8>` would be no plainer, with twice as many bytes to clear for each rule that is tried.
#![tactic(auto)]

ghost use Rattle.std.specs.Prelude.{◌≡◌, [], ◌∷◌, ◌++◌, ◌+◌, ◌*◌, ◌/◌, ◌%◌, ◌<◌, ◌≤◌, length, get_or, drop, take};
ghost use Rattle.limits.specs.Limits.{most_variables, most_nodes, byte_values, two_byte_values, cell_base};
ghost use Rattle.matching.specs.Held.{Within, Again, Advanced, Matched};
ghost use Rattle.matching.specs.Pieces.{Put, slot_of, first_cell, piece, pieces, replaced};

use limits::{CELL, FIRST_VARIABLE, VARIABLE, VARIABLES};

// The node's byte.
pub fn byte_of(c: u16) -> u8
    ensures { result ≡ c % cell_base }
{
    (c % CELL) as u8
}

// The size of the subterm, or 0 where it is not known.
pub fn size_of(c: u16) -> usize
    ensures { (result ≡ c / cell_base) × (result < byte_values) }
{
    (c / CELL) as usize
}

// The cell with the size n.
pub fn sized(c: u16, n: usize) -> u16
    requires { n < byte_values }
    ensures { result ≡ c % cell_base + cell_base * n }
{
    c % CELL + CELL * (n as u16)
}

// The end of the term at j where its cells are those of the term at a.
fn again(t: &[u16], a: usize, j: usize) -> Option<usize>
    requires j_in_bounds { (j < length t.now) × (length t.now ≤ most_nodes) }
    requires a_in_bounds { (a < length t.now) × (a + get_or t.now a 0 / cell_base ≤ length t.now) }
    ensures { Again t.now a j result }
{
    let n = size_of(t[a]);
    let f = a + n;
    let e = j + n;
    if e <= t.len() && &t[a..f] == &t[j..e] {
        return Some(e);
    }
    None
}

// One byte b of a left side against the node at j: the next place, or none where they differ.
fn advance(b: u8, t: &[u16], j: usize, binds: &mut [u8]) -> Option<usize>
    requires j_in_bounds { (j < length t.now) × (length t.now ≤ most_nodes) }
    requires most_variables_in_bounds { (most_variables ≤ length binds.old) × Within t.now binds.old }
    ensures { Advanced t.now b j binds.old result binds.new }
{
    if b < VARIABLE {
        return if byte_of(t[j]) == b {
            Some(j + 1)
        } else {
            None
        };
    }
    let x = usize::from(b) - FIRST_VARIABLE;
    if x >= VARIABLES {
        return None;
    }
    let k = usize::from(binds[x]);
    if k > 0 {
        return again(t, k - 1, j);
    }
    let n = size_of(t[j]);
    let e = j + n;
    if n == 0 || e > t.len() {
        return None;
    }
    binds[x] = (j + 1) as u8;
    Some(e)
}

// Whether the term at the start of t is an instance of left, and where its variables stand.
pub fn matches(left: &[u8], t: &[u16], binds: &mut [u8]) -> bool
    requires { (length t.now ≤ most_nodes) × (most_variables ≤ length binds.old) }
    ensures { Matched left.now t.now binds.old result binds.new }
{
    binds[0..VARIABLES].fill(0);
    let mut j = 0;
    for b in left {
        if j >= t.len() {
            return false;
        }
        let Some(e) = advance(*b, t, j, binds) else {
            return false;
        };
        j = e;
    }
    true
}

// The cells of run into out at w, where at most `most` may stand: the next place.
fn put_run(out: &mut [u16], w: usize, most: usize, run: &[u16]) -> Option<usize>
    requires { (w ≤ most) × (most ≤ length out.old) × (most ≤ two_byte_values) }
    ensures { Put out.old out.new w most result run.now }
{
    let n = run.len();
    if most - w < n {
        return None;
    }
    out[w..w + n].copy_from_slice(run);
    Some(w + n)
}

fn put_cell(out: &mut [u16], w: usize, most: usize, c: u16) -> Option<usize>
    requires { (w ≤ most) × (most ≤ length out.old) × (most ≤ two_byte_values) }
    ensures { Put out.old out.new w most result (c ∷ []) }
{
    if w >= most {
        return None;
    }
    out[w] = c;
    Some(w + 1)
}

// The place of a variable's term; none for a symbol and a free variable.
fn slot(b: u8, binds: &[u8]) -> Option<usize>
    requires { most_variables ≤ length binds.now }
    ensures { result ≡ slot_of binds.now b }
{
    if b < VARIABLE {
        return None;
    }
    let x = usize::from(b) - FIRST_VARIABLE;
    if x >= VARIABLES {
        return None;
    }
    usize::from(binds[x]).checked_sub(1)
}

// The first cell of the term at a: at 0 stands the redex, which is not normal.
fn first(c: u16, a: usize) -> u16
    ensures { result ≡ first_cell a c }
{
    if a == 0 { c % CELL } else { c }
}

// What stands for one byte b of a right side.
fn put_piece(
    out: &mut [u16],
    w: usize,
    most: usize,
    b: u8,
    t: &[u16],
    binds: &[u8],
) -> Option<usize>
    requires w_le_most { (w ≤ most) × (most ≤ length out.old) × (most ≤ two_byte_values) }
    requires t_len_bound { (length t.now ≤ most_nodes) × (most_variables ≤ length binds.now) × Within t.now binds.now }
    ensures { Put out.old out.new w most result (piece t.now binds.now b) }
{
    let Some(k) = slot(b, binds) else {
        return put_cell(out, w, most, u16::from(b));
    };
    let c = t[k];
    let v = put_cell(out, w, most, first(c, k))?;
    put_run(out, v, most, &t[k + 1..k + size_of(c)])
}

// The right side's instance, and then what follows the redex, which ends at `end`, into out: the length.
fn contract(
    out: &mut [u16],
    most: usize,
    right: &[u8],
    t: &[u16],
    end: usize,
    binds: &[u8],
) -> Option<usize>
    requires most_in_bounds { (most ≤ length out.old) × (most ≤ two_byte_values) × (end ≤ length t.now) }
    requires t_len_bound { (length t.now ≤ most_nodes) × (most_variables ≤ length binds.now) × Within t.now binds.now }
    ensures { Put out.old out.new 0 most result
        (pieces t.now binds.now right.now ++ drop end t.now) }
{
    let mut w = 0;
    for b in right {
        w = put_piece(out, w, most, *b, t, binds)?;
    }
    put_run(out, w, most, &t[end..])
}

// The redex at the start of t, which ends at `end`, is replaced by the instance of the right side: the length, or none where it is over `most`.
pub fn replace(
    t: &mut [u16],
    len: usize,
    end: usize,
    most: usize,
    right: &[u8],
    binds: &[u8],
) -> Option<usize>
    requires end_le_len { (end ≤ len) × (len ≤ most) × (most ≤ length t.old) × (most ≤ most_nodes) }
    requires most_variables_in_bounds { (most_variables ≤ length binds.now) × Within (take len t.old) binds.now }
    ensures { Put t.old t.new 0 most result (replaced (take len t.old) binds.now right.now end) }
{
    let mut out = [0u16; limits::NODES];
    let w = contract(&mut out, most, right, &t[0..len], end, binds)?;
    put_run(t, 0, most, &out[0..w])
}
