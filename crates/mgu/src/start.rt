// What unification starts from: each node's end and first class, and the classes of the two terms joined.
ghost use Rattle.std.specs.Prelude.{◌≡◌, ◌+◌, ◌<◌, ◌≤◌, length, drop};
ghost use Rattle.limits.specs.Limits.{arena_width};
ghost use Rattle.terms.specs.Scan.{skip};
ghost use Rattle.classes.specs.Steps.{Each};
ghost use Rattle.mgu.specs.Result.{LaidOut, EndAt, EndsFrom, FirstClass, Firsts, Joined};

// Where k subterms end that stand one after the other from p on, by the ends of the nodes there.
fn hop(nodes: &[u8], table: &[u8], ends: &[u16], p: usize, k: usize) -> usize
    requires p_in_bounds { (p ≤ length nodes.now) × (length nodes.now ≤ arena_width) × (length nodes.now ≤ length ends.now) }
    requires ends_from { EndsFrom nodes.now table.now ends.now p }
    ensures { (result ≡ p + skip table.now (drop p nodes.now) k) × (result ≤ length nodes.now) }
{
    let mut q = p;
    for left in (0..k).rev() {
        if q >= nodes.len() {
            return q;
        }
        q = usize::from(ends[q]);
    }
    q
}

// ends[i] is the node after the subterm of node i: from the last node to the first, since arguments come after their node.
fn fill_ends(nodes: &[u8], table: &[u8], ends: &mut [u16])
    requires { (length nodes.now ≤ arena_width) × (length nodes.now ≤ length ends.old) }
    ensures ends_len_unchanged { length ends.new ≡ length ends.old }
    ensures each { Each (EndAt nodes.now table.now) ends.new (length nodes.now) }
{
    for i in (0..nodes.len()).rev() {
        let k = terms::owed_by(table, nodes[i]);
        ends[i] = hop(nodes, table, ends, i + 1, k) as u16;
    }
}

// The class that node i has at first: the first node of its variable, or itself. firsts has the first nodes of the variables before it.
fn first_class(nodes: &[u8], firsts: &[u16], i: usize) -> usize
    requires { (i < length nodes.now) × Firsts nodes.now firsts.now i }
    ensures { FirstClass nodes.now i result × (result ≤ i) }
{
    if nodes[i] < limits::VARIABLE {
        return i;
    }
    let b = usize::from(nodes[i]);
    let f = usize::from(firsts[b]);
    if f == 0 {
        return i;
    }
    f - 1
}

// The classes at first: a table has, for each byte, one more than the class of the last node with it.
// Kept: 0 is a byte that no node has had, since an `Option` would double the table that each call clears.
fn fill_class(nodes: &[u8], class: &mut [u16])
    requires { (length nodes.now ≤ arena_width) × (length nodes.now ≤ length class.old) }
    ensures class_len_unchanged { length class.new ≡ length class.old }
    ensures each { Each (FirstClass nodes.now) class.new (length nodes.now) }
{
    let mut firsts = [0u16; limits::BYTES];
    for i in 0..nodes.len() {
        let c = first_class(nodes, &firsts, i);
        class[i] = c as u16;
        let b = usize::from(nodes[i]);
        firsts[b] = (c + 1) as u16;
    }
}

// The ends and the first classes, with the classes of nodes a and b as one.
pub fn begin(nodes: &[u8], table: &[u8], a: usize, b: usize, ends: &mut [u16], class: &mut [u16])
    requires nodes_len_bound { (length nodes.now ≤ arena_width) × (length nodes.now ≤ length ends.old) × (length nodes.now ≤ length class.old) }
    requires laid_out { LaidOut nodes.now table.now × (a < length nodes.now) × (b < length nodes.now) }
    ensures { Joined nodes.now table.now a b ends.new class.new }
{
    fill_ends(nodes, table, ends);
    fill_class(nodes, class);
    classes::join(nodes, class, a, b);
}
