// The pair of an overlap: the instances of two terms, renamed together, where they and the peak are small enough.
#![tactic(auto)]

ghost use Rattle.std.specs.Prelude.{true, ◌<◌, length};
ghost use Rattle.classes.specs.Steps.{at};
ghost use Rattle.classes.specs.Read.{arena_of, root_of};
ghost use Rattle.sizing.specs.Sizes.{SizedIn, SizesKnown};
ghost use Rattle.slots.specs.Slots.{Layout};
ghost use Rattle.critical_pairs.specs.Placed.{VariablesLow, BothSmall, PutPair, PairPlaced};

use classes::Arena;
use limits::NODES;

// The instances of nodes a and b, written one after the other, renamed together, and put into the slot `pair`.
fn put_pair(arena: &Arena, a: usize, b: usize, pair: &mut [u8])
    requires low { VariablesLow arena.now.nodes.now }
    requires both_small { BothSmall (arena_of arena.now) (root_of arena.now) a b }
    requires layout { Layout pair.old 1 }
    ensures { PutPair (arena_of arena.now) (root_of arena.now) a b pair.old pair.new }
{
    let mut out = [0u8; limits::PAIR];
    let e = mgu::write(arena, a, &mut out, 0);
    let f = mgu::write(arena, b, &mut out, e);
    naming::rename_front(&mut out, f);
    let both = &out[..];
    slots::put_sides(pair, 0, &both[0..e], &both[e..f]);
}

// Whether the peak, which is at node 0, and the terms at nodes a and b are small enough. Then their pair is written.
pub fn place(arena: &Arena, sizes: &[u8], a: usize, b: usize, pair: &mut [u8]) -> bool
    requires sized { SizedIn arena.now sizes.now × SizesKnown (arena_of arena.now) (at sizes.now) true × VariablesLow arena.now.nodes.now }
    requires nodes_nonzero { (0 < length arena.now.nodes.now) × (a < length arena.now.nodes.now) × (b < length arena.now.nodes.now) }
    requires layout { Layout pair.old 1 }
    ensures { PairPlaced (arena_of arena.now) (root_of arena.now) a b
        pair.old pair.new result }
{
    if usize::from(sizes[0]) > NODES
        || usize::from(sizes[a]) > NODES
        || usize::from(sizes[b]) > NODES
    {
        return false;
    }
    put_pair(arena, a, b, pair);
    true
}
