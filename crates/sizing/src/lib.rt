// The sizes of the instances that classes of nodes stand for; a node that has none is on a circle.
#![tactic(auto)]

ghost use Rattle.std.specs.Prelude.{◌≤◌, ◌<◌, length};
ghost use Rattle.classes.specs.Steps.{at, SpellsSome};
ghost use Rattle.classes.specs.Read.{arena_of, root_of};
ghost use Rattle.sizing.specs.Sizes.{SizedIn, Total, SizeAt, SizedToIn};

use classes::Arena;

// Any size above the limit: 121.
const TOO_LARGE: usize = limits::NODES + 1;

// One more than the sizes of k arguments from a on, at most `TOO_LARGE`, if they are known.
fn total(arena: &Arena, sizes: &[u8], a: usize, k: usize) -> Option<usize>
    requires sized { SizedIn arena.now sizes.now }
    requires spells_some { SpellsSome (arena_of arena.now) a k }
    ensures { Total (arena_of arena.now) (root_of arena.now) (at sizes.now) a k result }
{
    let mut p = a;
    let mut sum: usize = 1;
    for left in (0..k).rev() {
        let s = usize::from(sizes[p]);
        if s == 0 {
            return None;
        }
        sum = (sum + s).min(TOO_LARGE);
        p = usize::from(arena.ends[p]);
    }
    Some(sum)
}

// The size of node i, at most `TOO_LARGE`, if those of its arguments are known.
fn size_at(arena: &Arena, sizes: &[u8], i: usize) -> Option<usize>
    requires sized { SizedIn arena.now sizes.now }
    requires i_in_bounds { i < length arena.now.nodes.now }
    ensures { SizeAt (arena_of arena.now) (root_of arena.now) (at sizes.now) i result }
{
    let r = usize::from(arena.class[i]);
    let f = arena.nodes[r];
    if f >= limits::VARIABLE {
        return Some(1);
    }
    let k = terms::owed_by(arena.table, f);
    total(arena, sizes, r + 1, k)
}

// Passes from the last node to the first, since arguments come after their node, until no size is lacking or one finds none: whether each node has
// a size.
// Kept: 0 in `sizes` is a size that is not known, so that the sizes are bytes in memory that the caller has.
fn fill_sizes(arena: &Arena, sizes: &mut [u8]) -> bool
    requires { SizedIn arena.now sizes.old }
    ensures { SizedToIn arena.now sizes.new result }
{
    let mut i = arena.nodes.len();
    let mut found = false;
    let mut lost = false;
    // Kept: i goes back to the last node after a pass that found a size, which a `for` does not say.
    loop {
        if i > 0 {
            i -= 1;
            if sizes[i] == 0 {
                match size_at(arena, sizes, i) {
                    Some(k) => {
                        sizes[i] = k as u8;
                        found = true;
                    }
                    None => lost = true,
                }
            }
        } else {
            if !lost {
                return true;
            }
            if !found {
                return false;
            }
            i = arena.nodes.len();
            found = false;
            lost = false;
        }
    }
}

// The sizes of the instances: whether each node has one.
pub fn measure(arena: &Arena, sizes: &mut [u8]) -> bool
    requires { length arena.now.nodes.now ≤ length sizes.old }
    ensures { SizedToIn arena.now sizes.new result }
{
    sizes.fill(0);
    fill_sizes(arena, sizes)
}
