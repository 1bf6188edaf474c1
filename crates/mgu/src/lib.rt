// Unification of the terms at two nodes of an arena of bytes, by classes of nodes.
#![tactic(auto)]

mod start;

ghost use Rattle.std.specs.Prelude.{◌≡◌, ◌+◌, ◌<◌, ◌≤◌, length};
ghost use Rattle.limits.specs.Limits.{arena_width};
ghost use Rattle.classes.specs.Read.{arena_of, root_of};
ghost use Rattle.mgu.specs.Result.{LaidOut, SolvedIf, Decided, Formed, IsTerms};
ghost use Rattle.mgu.specs.Written.{put, hops, HopsWithin, RoomFor, WritesTerm};

use classes::Arena;
use limits::NODES;

// Whether the terms at nodes a and b have a unifier; then the classes and sizes of the most general one are left behind.
pub fn unify(
    nodes: &[u8],
    table: &[u8],
    a: usize,
    b: usize,
    ends: &mut [u16],
    class: &mut [u16],
    sizes: &mut [u8],
) -> bool
    requires nodes_len_bound { (length nodes.now ≤ arena_width) × (length nodes.now ≤ length ends.old) × (length nodes.now ≤ length class.old)
        × (length nodes.now ≤ length sizes.old) }
    requires laid_out { LaidOut nodes.now table.now × (a < length nodes.now) × (b < length nodes.now) }
    ensures decided { Decided nodes.now table.now a b result }
    ensures solved_if { SolvedIf nodes.now table.now a b ends.new class.new sizes.new result }
{
    start::begin(nodes, table, a, b, ends, class);
    if !classes::close(nodes, table, ends, class) {
        return false;
    }
    sizing::measure(
        &Arena {
            nodes,
            table,
            ends,
            class,
        },
        sizes,
    )
}

// How many terms stand from a byte b on that `have` terms follow, if b can begin one.
fn formed(table: &[u8], b: u8, have: usize) -> Option<usize>
    requires { have ≤ arena_width }
    ensures { Formed table.now b have result }
{
    if b >= limits::VARIABLES_END {
        return None;
    }
    if b >= limits::VARIABLE {
        return Some(have + 1);
    }
    if b >= limits::SYMBOLS_END {
        return None;
    }
    let rest = have.checked_sub(terms::owed_by(table, b))?;
    Some(rest + 1)
}

// Whether the bytes are those of terms, one after the other, with variables below `most_apart`: a walk from the last byte to the first.
pub fn laid_out(nodes: &[u8], table: &[u8]) -> bool
    requires { length nodes.now ≤ arena_width }
    ensures { IsTerms nodes.now table.now result }
{
    let mut have = 0;
    for i in (0..nodes.len()).rev() {
        let Some(more) = formed(table, nodes[i], have) else {
            return false;
        };
        have = more;
    }
    true
}

// The k nodes that stand one after the other from p on, by the nodes' ends, into `owed` from w on.
fn list(ends: &[u16], p: usize, k: usize, owed: &mut [u16], w: usize)
    requires { (w + k ≤ length owed.old) × HopsWithin ends.now p k }
    ensures { owed.new ≡ put w (hops ends.now p k) owed.old }
{
    let mut q = p;
    for j in 0..k {
        owed[w + j] = q as u16;
        q = usize::from(ends[q]);
    }
}

// Writes the instance of the term at node p, and answers where it ends. The nodes of the subterms still owed stand at the end of a list, the next one
// first: it is taken, the byte of its class is written, and the arguments of that node are owed in its place.
pub fn write(arena: &Arena, p: usize, out: &mut [u8], to: usize) -> usize
    requires { RoomFor (arena_of arena.now) (root_of arena.now) p to out.old }
    ensures { WritesTerm (arena_of arena.now) (root_of arena.now) p to out.old result
        out.new }
{
    let mut owed = [0u16; NODES];
    let mut first = NODES - 1;
    owed[first] = p as u16;
    let mut i = to;
    // Kept: the list of what is owed grows and shrinks at its front; no index runs over it.
    while first < NODES {
        let q = usize::from(owed[first]);
        let r = usize::from(arena.class[q]);
        let f = arena.nodes[r];
        out[i] = f;
        i += 1;
        let n = terms::owed_by(arena.table, f);
        first = first + 1 - n;
        list(arena.ends, r + 1, n, &mut owed, first);
    }
    i
}
