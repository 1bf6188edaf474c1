// The most general common instance of two terms, renamed, as a field of the result.
#![tactic(auto)]

ghost use Rattle.std.specs.Prelude.{◌+◌, ◌≤◌, length};
ghost use Rattle.limits.specs.Limits.{most_nodes, field_head};
ghost use Rattle.instances.specs.Common.{TwoSides, SidesUnify, SpeltIn, WritesSpeltIn};

use classes::Arena;
use fields::Writer;

// The tag of the result's field.
const INSTANCE: u8 = 0x15;

// Writes the instance of the term at node 0, renamed.
fn write_instance(arena: &Arena, res: &mut [u8]) -> usize
    requires spelt { SpeltIn arena.now }
    requires most_nodes_in_bounds { field_head + most_nodes ≤ length res.old }
    ensures { WritesSpeltIn arena.now result res.old res.new }
{
    let mut out = [0u8; limits::NODES];
    let n = mgu::write(arena, 0, &mut out, 0);
    naming::rename_front(&mut out, n);
    let mut w = Writer { out: res, at: 0 };
    w.field(INSTANCE, &out[..n]);
    w.at
}

#[derive(Clone, Copy, Debug, PartialEq, Eq)]
pub enum Found {
    // The instance was written, so many bytes of the result.
    Instance(usize),
    // There is none.
    Nothing,
    // It has over 120 nodes.
    TooLarge,
}

// The most general common instance of the terms at nodes 0 and b.
pub fn common_instance(nodes: &[u8], table: &[u8], b: usize, res: &mut [u8]) -> Found
    requires two_sides { TwoSides nodes.now table.now b }
    requires most_nodes_in_bounds { field_head + most_nodes ≤ length res.old }
    ensures { SidesUnify nodes.now table.now b result res.old res.new }
{
    let mut ends = [0u16; limits::PAIR];
    let mut class = [0u16; limits::PAIR];
    let mut sizes = [0u8; limits::PAIR];
    if !mgu::unify(nodes, table, 0, b, &mut ends, &mut class, &mut sizes) {
        return Found::Nothing;
    }
    if usize::from(sizes[0]) > limits::NODES {
        return Found::TooLarge;
    }
    let arena = Arena {
        nodes,
        table,
        ends: &ends,
        class: &class,
    };
    Found::Instance(write_instance(&arena, res))
}
