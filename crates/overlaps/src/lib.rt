// The overlap of two stored rules at a position.
#![tactic(auto)]

ghost use Rattle.std.specs.Prelude.{◌<◌, ◌≤◌, length};
ghost use Rattle.limits.specs.Limits.{most_nodes};
ghost use Rattle.slots.specs.Slots.{slot, left_length, Layout};
ghost use Rattle.overlaps.specs.Answer.{Within, SolvesAt, Meets, Possible, Overlapped};

use classes::Arena;
use slots::System;

#[derive(Clone, Copy, Debug, PartialEq, Eq)]
pub enum Met {
    // There is no overlap.
    Nothing,
    // The peak or a side is too large.
    TooLarge,
    // The pair stands in the lent slot.
    Pair,
}

// Where terms begin among the nodes: the inner left side and the outer subterm, which are unified, and the pair's two terms.
#[derive(Clone, Copy)]
pub struct Roots {
    pub inner: usize,
    pub outer: usize,
    pub left: usize,
    pub right: usize,
}

// Unifies, and puts the pair into its slot.
fn solve_in(
    nodes: &[u8],
    table: &[u8],
    at: Roots,
    ends: &mut [u16],
    class: &mut [u16],
    sizes: &mut [u8],
    pair: &mut [u8],
) -> Met
    requires within { Within nodes.now at × Layout pair.old 1 }
    requires nodes_in_bounds { (length nodes.now ≤ length ends.old) × (length nodes.now ≤ length class.old) × (length nodes.now ≤ length sizes.old) }
    ensures { SolvesAt nodes.now table.now at pair.old pair.new result }
{
    if !mgu::laid_out(nodes, table) {
        return Met::Nothing;
    }
    if !mgu::unify(nodes, table, at.inner, at.outer, ends, class, sizes) {
        return Met::Nothing;
    }
    let arena = Arena {
        nodes,
        table,
        ends,
        class,
    };
    if critical_pairs::place(&arena, sizes, at.left, at.right, pair) {
        Met::Pair
    } else {
        Met::TooLarge
    }
}

// `solve_in` with buffers of its own, of which it lends as much as there are nodes.
fn solve(nodes: &[u8], table: &[u8], at: Roots, pair: &mut [u8]) -> Met
    requires { Within nodes.now at × Layout pair.old 1 }
    ensures { SolvesAt nodes.now table.now at pair.old pair.new result }
{
    let mut ends = [0u16; limits::ARENA];
    let mut class = [0u16; limits::ARENA];
    let mut sizes = [0u8; limits::ARENA];
    let k = nodes.len();
    solve_in(
        nodes,
        table,
        at,
        &mut ends[0..k],
        &mut class[0..k],
        &mut sizes[0..k],
        pair,
    )
}

// The overlap of the rule from l1 to r1 with the rule from l2 to r2 at a position of l2.
fn meet(
    l1: &[u8],
    r1: &[u8],
    l2: &[u8],
    r2: &[u8],
    table: &[u8],
    position: usize,
    pair: &mut [u8],
) -> Met
    requires l1_len_bound { (length l1.now ≤ most_nodes) × (length r1.now ≤ most_nodes) × (length l2.now ≤ most_nodes) × (length r2.now ≤ most_nodes) }
    requires position_in_bounds { (position < length l2.now) × (0 < length r2.now) × Layout pair.old 1 }
    ensures { Meets table.now l1.now r1.now l2.now r2.now position pair.old
        pair.new result }
{
    let mut nodes = [0u8; limits::ARENA];
    let end = overlap_terms::lay_four(l1, r1, l2, r2, table, position, &mut nodes);
    let n = l2.len();
    let at = Roots {
        inner: n,
        outer: position,
        left: n + l1.len(),
        right: end - r2.len(),
    };
    solve(&nodes[0..end], table, at, pair)
}

// Whether a symbol stands at the position of the outer rule's left side, and does not clash with the inner rule's left side there: else there is no
// overlap.
pub fn possible(system: System, inner: usize, outer: usize, position: usize) -> bool
    requires { (inner < system.count) × (outer < system.count) }
    ensures { Possible system.entry.table.now system.entry.rules.now inner outer position result }
{
    let l2 = slots::left(system.rules, outer);
    if position >= l2.len() || l2[position] >= limits::VARIABLE {
        return false;
    }
    !clash::clash(slots::left(system.rules, inner), l2, system.table, position)
}

// The overlap of an inner rule with an outer rule at a position of its left side, where one is possible: the pair, renamed, is left in the slot `pair`.
pub fn overlap(system: System, inner: usize, outer: usize, position: usize, pair: &mut [u8]) -> Met
    requires inner_in_bounds { (inner < system.count) × (outer < system.count) }
    requires position_bound { (position < left_length (slot system.rules.now outer)) × Layout pair.old 1 }
    ensures { Overlapped system.entry.table.now system.entry.rules.now inner outer position pair.old pair.new result }
{
    let r2 = slots::right(system.rules, outer);
    if r2.is_empty() {
        return Met::Nothing;
    }
    let l2 = slots::left(system.rules, outer);
    let l1 = slots::left(system.rules, inner);
    let r1 = slots::right(system.rules, inner);
    meet(l1, r1, l2, r2, system.table, position, pair)
}
