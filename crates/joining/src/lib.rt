// Two terms normalised, left then right, by one of the two strategies, and their last terms compared.
#![tactic(auto)]

ghost use Rattle.std.specs.Prelude.{◌≡◌, ◌≤◌, length};
ghost use Rattle.limits.specs.Limits.{most_nodes};
ghost use Rattle.slots.specs.Slots.{Layout};
ghost use Rattle.normaliser.specs.Settled.{end_of, Normalised};
ghost use Rattle.joining.specs.Joins.{by_strategy, RightJoined, SidesJoined};

use limits::NODES;
use normaliser::{Reached, Stop};
use rewriting::End;
use slots::System;

// Which matched node a step takes.
#[derive(Clone, Copy, Debug, PartialEq, Eq)]
pub enum Strategy {
    // The earliest in preorder among those with no matched node strictly below.
    Innermost,
    // The earliest in preorder.
    Outermost,
}

// What two terms came to, or a walk over pairs.
#[derive(Clone, Copy, Debug, PartialEq, Eq)]
pub enum Joined {
    // The two last terms are equal: of a walk, those of each pair.
    Equal,
    // Two different last terms: they stand in the lent slot.
    Different,
}

#[derive(Clone, Copy)]
pub struct Walk {
    // What they came to, or how they stopped.
    pub found: Result<Joined, End>,
    // The units left.
    pub units: u32,
}

// A side that came to no last term.
fn stopped(stop: Stop, units: u32) -> Walk
    ensures { result ≡ record { found = Err (end_of stop); units = units } }
{
    Walk {
        found: Err(End::from(stop)),
        units,
    }
}

// The last term of t by the strategy, to the front of `out`.
fn last_term(strategy: Strategy, t: &[u8], system: System, units: u32, out: &mut [u8]) -> Reached
    requires { (length t.now ≤ most_nodes) × (most_nodes ≤ length out.old) }
    ensures { Normalised (by_strategy strategy) system.entry.table.now system.entry.rules.now system.entry.count t.now out.old out.new
        units result }
{
    match strategy {
        Strategy::Innermost => normaliser::normalise(t, system, units, out),
        Strategy::Outermost => outer_normaliser::normalise(t, system, units, out),
    }
}

// The second term normalised, and compared with the first's last term.
fn join_right(
    strategy: Strategy,
    first: &[u8],
    t: &[u8],
    system: System,
    units: u32,
    pair: &mut [u8],
) -> Walk
    requires layout { Layout pair.old 1 }
    requires first_len_bound { (length first.now ≤ most_nodes) × (length t.now ≤ most_nodes) }
    ensures { RightJoined strategy system.entry.table.now system.entry.rules.now system.entry.count first.now t.now pair.old
        pair.new units result }
{
    let mut right = [0u8; NODES];
    let r = last_term(strategy, t, system, units, &mut right);
    let units = units - r.paid;
    match r.form {
        Ok(n) => {
            if first == &right[0..n] {
                return Walk {
                    found: Ok(Joined::Equal),
                    units,
                };
            }
            slots::put_sides(pair, 0, first, &right[0..n]);
            Walk {
                found: Ok(Joined::Different),
                units,
            }
        }
        Err(stop) => stopped(stop, units),
    }
}

// The two terms normalised by the rules in the slots, left then right, within the units, and their last terms compared. Two that differ are the sides
// of the pair in the lent slot.
pub fn join(
    strategy: Strategy,
    left: &[u8],
    right: &[u8],
    system: System,
    units: u32,
    pair: &mut [u8],
) -> Walk
    requires layout { Layout pair.old 1 }
    requires left_len_bound { (length left.now ≤ most_nodes) × (length right.now ≤ most_nodes) }
    ensures { SidesJoined strategy system.entry.table.now system.entry.rules.now system.entry.count left.now right.now pair.old
        pair.new units result }
{
    let mut first = [0u8; NODES];
    let l = last_term(strategy, left, system, units, &mut first);
    let rest = units - l.paid;
    match l.form {
        Ok(n) => join_right(strategy, &first[0..n], right, system, rest, pair),
        Err(stop) => stopped(stop, rest),
    }
}
