// Classes of nodes in an arena of terms, joined until arguments of one class are in one class, or two symbols meet.
#![tactic(auto)]

ghost use Rattle.std.specs.Prelude.{◌≡◌, map, ◌<◌, ◌≤◌, length};
ghost use Rattle.limits.specs.Limits.{arena_width};
ghost use Rattle.classes.specs.Steps.{at, arena, Ready, SpellsSome, Apart, StepIs, key, relabelled, joined, ClosedTo};
ghost use Rattle.classes.specs.Read.{arena_of, root_of};

mod arena;

pub use crate::arena::Arena;
use limits::VARIABLE;

// What the key of a variable's node has above its place: more than an arena has nodes.
const BEHIND_SYMBOLS: usize = 1024;

#[derive(Clone, Copy, Debug, PartialEq, Eq)]
pub enum Step {
    // Nothing is to be joined here.
    Done,
    // Two symbols meet in a class.
    Clash,
    // The classes of two nodes must be joined.
    Join(usize, usize),
}

// The first of k arguments from a on that is not in the class of its fellow from b on.
fn apart(arena: &Arena, a: usize, b: usize, k: usize) -> Step
    requires { SpellsSome (arena_of arena.now) a k × SpellsSome (arena_of arena.now) b k }
    ensures { Apart (arena_of arena.now) (root_of arena.now) a b k result }
{
    let mut p = a;
    let mut q = b;
    for left in (0..k).rev() {
        if arena.class[p] != arena.class[q] {
            return Step::Join(p, q);
        }
        p = usize::from(arena.ends[p]);
        q = usize::from(arena.ends[q]);
    }
    Step::Done
}

// What node i and the root of its class ask for.
fn step_at(arena: &Arena, i: usize) -> Step
    requires { i < length arena.now.nodes.now }
    ensures { StepIs (arena_of arena.now) (root_of arena.now) i result }
{
    let r = usize::from(arena.class[i]);
    let f = arena.nodes[i];
    if r == i || f >= VARIABLE {
        return Step::Done;
    }
    if arena.nodes[r] != f {
        return Step::Clash;
    }
    let k = terms::owed_by(arena.table, f);
    apart(arena, i + 1, r + 1, k)
}

// Symbols come before variables, and smaller nodes before larger.
fn key(nodes: &[u8], r: u16) -> usize
    requires { (r < length nodes.now) × (length nodes.now ≤ arena_width) }
    ensures { result ≡ key nodes.now r }
{
    let i = usize::from(r);
    if nodes[i] < VARIABLE {
        i
    } else {
        i + BEHIND_SYMBOLS
    }
}

// The class whose root is `from` gets the root `to`.
fn relabel(class: &mut [u16], from: u16, to: u16)
    ensures { class.new ≡ map (relabelled from to) class.old }
{
    // Each entry is stored, whether it changes or not: so the loop can be done many entries at a time.
    for b in class.iter_mut() {
        *b = if *b == from { to } else { *b };
    }
}

// The classes of nodes a and b become one.
pub fn join(nodes: &[u8], class: &mut [u16], a: usize, b: usize)
    requires a_in_bounds { (a < length nodes.now) × (b < length nodes.now) × (length nodes.now ≤ arena_width) × (length nodes.now ≤ length class.old) }
    requires a_in_bounds_2 { (at class.old a < length nodes.now) × (at class.old b < length nodes.now) }
    ensures { class.new ≡ joined nodes.now class.old a b }
{
    let ra = class[a];
    let rb = class[b];
    if key(nodes, ra) < key(nodes, rb) {
        relabel(class, rb, ra);
    } else {
        relabel(class, ra, rb);
    }
}

// Joins until the classes are closed, or two symbols meet: passes over the nodes, until one joins nothing.
pub fn close(nodes: &[u8], table: &[u8], ends: &[u16], class: &mut [u16]) -> bool
    requires { Ready nodes.now table.now ends.now class.old }
    ensures ready { Ready nodes.now table.now ends.now class.new }
    ensures closed_to { ClosedTo (arena nodes.now table.now ends.now) (at class.old) (at class.new) result }
{
    let mut i = 0;
    let mut again = false;
    // Kept: i stays at a node until it joins nothing there, and goes back to the first node after a pass that joined, which a `for` does not say.
    loop {
        if i < nodes.len() {
            let arena = Arena {
                nodes,
                table,
                ends,
                class,
            };
            match step_at(&arena, i) {
                Step::Done => i += 1,
                Step::Clash => return false,
                Step::Join(a, b) => {
                    join(nodes, class, a, b);
                    again = true;
                }
            }
        } else {
            if !again {
                return true;
            }
            i = 0;
            again = false;
        }
    }
}
