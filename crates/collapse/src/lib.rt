// Step 6 of a turn on the pairs in their slots: the older rules that the newest one rewrites go behind what waits.
#![tactic(auto)]

ghost use Rattle.std.specs.Prelude.{◌<◌, ◌≤◌};
ghost use Rattle.slots.specs.Slots.{Layout};
ghost use Rattle.collapse.specs.Sifting.{SiftedOne, Sifted};

use slots::{ROOM, System};

// Of `count` pairs the first `live` are the rules, `new` the last of them: the others that it rewrites go behind all pairs. How many rules stay.
pub fn sift(pairs: &mut [u8; ROOM], new: &[u8], live: usize, count: usize, table: &[u8]) -> usize
    requires { Layout pairs.old count × (0 < live) × (live ≤ count) × Layout new.now 1 }
    ensures { Sifted table.now new.now pairs.old live count pairs.new result }
{
    let mut stay = live;
    // Kept: where a rule goes, another takes its place, and i stays.
    let mut i = 0;
    while i + 1 < stay {
        if sift_one(pairs, i, new, count, table) {
            stay -= 1;
        } else {
            i += 1;
        }
    }
    stay
}

// Whether the rule `new` rewrites the pair at i, which then goes behind all others.
fn sift_one(pairs: &mut [u8], i: usize, new: &[u8], count: usize, table: &[u8]) -> bool
    requires { Layout pairs.old count × (i < count) × Layout new.now 1 }
    ensures { SiftedOne table.now new.now pairs.old i count pairs.new result }
{
    let one = slots::copy(pairs, i);
    let system = System {
        table,
        rules: new,
        count: 1,
    };
    let rewrites = normaliser::reducible(slots::left(&one, 0), system);
    if rewrites {
        slots::move_last(pairs, i, count);
    }
    rewrites
}
