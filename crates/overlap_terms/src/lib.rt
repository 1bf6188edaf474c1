// The four terms of an overlap, laid out one after the other, with the inner rule's variables renamed apart.
#![tactic(auto)]

ghost use Rattle.std.specs.Prelude.{◌≡◌, ◌+◌, ◌<◌, ◌≤◌, length};
ghost use Rattle.limits.specs.Limits.{most_variables, most_nodes, arena_width};
ghost use Rattle.overlap_terms.specs.Layout.{moved, Lays, LaysFour};

// How far up the inner rule's variables move: behind every variable of the outer rule.
const APART: u8 = limits::VARIABLES as u8;

// From here on a byte moved up would be none: 240.
const MOVABLE_END: u8 = (limits::BYTES - limits::VARIABLES) as u8;

// A variable's byte so many variables up; a byte that cannot be moved stands for no variable of a rule.
fn moved(b: u8, up: u8) -> u8
    requires { up ≤ most_variables }
    ensures { result ≡ moved up b }
{
    if limits::VARIABLE <= b && b < MOVABLE_END {
        b + up
    } else {
        b
    }
}

// Bytes into the nodes at w, with their variables moved up: where they end.
fn lay(nodes: &mut [u8], w: usize, t: &[u8], up: u8) -> usize
    requires { (w + length t.now ≤ length nodes.old) × (up ≤ most_variables) }
    ensures { Lays nodes.old w t.now up nodes.new result }
{
    for (i, b) in t.iter().enumerate() {
        nodes[w + i] = moved(*b, up);
    }
    w + t.len()
}

// The four terms of an overlap, one after the other: where they end.
pub fn lay_four(
    l1: &[u8],
    r1: &[u8],
    l2: &[u8],
    r2: &[u8],
    table: &[u8],
    position: usize,
    nodes: &mut [u8],
) -> usize
    requires l1_len_bound { (length l1.now ≤ most_nodes) × (length r1.now ≤ most_nodes) × (length l2.now ≤ most_nodes) × (length r2.now ≤ most_nodes) }
    requires position_in_bounds { (position < length l2.now) × (arena_width ≤ length nodes.old) }
    ensures { LaysFour table.now l1.now r1.now l2.now r2.now position
        nodes.old nodes.new result }
{
    let e = terms::term_end(l2, table, position);
    let a = lay(nodes, 0, l2, 0);
    let b = lay(nodes, a, l1, APART);
    let c = lay(nodes, b, &l2[0..position], 0);
    let d = lay(nodes, c, r1, APART);
    let f = lay(nodes, d, &l2[e..], 0);
    lay(nodes, f, r2, 0)
}
