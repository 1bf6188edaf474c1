// Normalising from the outside in by rules in slots: the earliest matched node in preorder, and the lowest rule there. The term stands in cells, all of
// which have their sizes.
#![tactic(auto)]

ghost use Rattle.std.specs.Prelude.{◌≡◌, ◌≤◌, length};
ghost use Rattle.limits.specs.Limits.{most_nodes, most_variables};
ghost use Rattle.rewriting.specs.Outermost.{normalise_outer};
ghost use Rattle.normaliser.specs.Settled.{Normalised};
ghost use Rattle.outer_normaliser.specs.Outer.{Skipped, FirstRedex, PathOpened, SteppedOuter, ReachedOuter};

use limits::NODES;
use normaliser::Reached;
use redex::{Out, Step};
use slots::System;

// The size in the cell c of the node at i, where its subterm ends at `clean` or before.
fn skipped(c: u16, i: usize, clean: usize) -> Option<usize>
    requires { i ≤ most_nodes }
    ensures { Skipped c i clean result }
{
    let n = matching::size_of(c);
    if n == 0 || i + n > clean {
        return None;
    }
    Some(n)
}

// A node, and the rule that matches there.
#[derive(Clone, Copy, Debug, PartialEq, Eq)]
pub struct Found {
    pub at: usize,
    pub rule: usize,
}

// The earliest node that a rule matches, and the lowest rule there. No rule matches a node whose subterm ends at `clean` or before: of the nodes before
// that place only its ancestors are looked at.
fn first_redex(t: &[u16], clean: usize, system: &System, binds: &mut [u8]) -> Option<Found>
    requires t_len_bound { (length t.now ≤ most_nodes) × (most_variables ≤ length binds.old) }
    ensures { FirstRedex system.now.rules.now t.now clean system.now.count binds.old binds.new result }
{
    // Kept: i moves by a subterm's size.
    let mut i = 0;
    while i < t.len() {
        if let Some(n) = skipped(t[i], i, clean) {
            i += n;
        } else if let Some(rule) = redex::find(system, &t[i..], binds) {
            return Some(Found { at: i, rule });
        } else {
            i += 1;
        }
    }
    None
}

// The cells of the nodes above the one at `at` lose their sizes, which are those of before a step there.
fn open_path(t: &mut [u16], at: usize)
    requires { (at ≤ length t.old) × (length t.old ≤ most_nodes) }
    ensures { PathOpened t.old at t.new }
{
    // Kept: i moves by a subterm's size.
    let mut i = 0;
    while i < at {
        if let Some(n) = skipped(t[i], i, at) {
            i += n;
        } else {
            t[i] = matching::sized(t[i], 0);
            i += 1;
        }
    }
}

// One step, or none: the term is in the first `len` cells, and `end` is the place of a step that was made.
fn step(t: &mut [u16], len: usize, clean: usize, system: &System, units: u32) -> Out
    requires len_le_most_nodes { (len ≤ most_nodes) × (length t.old ≡ most_nodes) }
    ensures { SteppedOuter system.now.table.now system.now.rules.now system.now.count t.old len clean units t.new result }
{
    let mut binds = [0u8; limits::VARIABLES];
    let Some(f) = first_redex(&t[0..len], clean, system, &mut binds) else {
        return redex::ended(Step::Normal, units, len, len);
    };
    if units == 0 {
        return redex::ended(Step::Spent, 0, len, len);
    }
    let Some(w) = redex::contract_at(t, len, f.at, system.rules, f.rule, &binds) else {
        return redex::ended(Step::TooLarge, units - 1, len, len);
    };
    open_path(t, f.at);
    redex::size_cells(&mut t[0..w], system.table);
    redex::ended(Step::Rewritten, units - 1, w, f.at)
}

// Steps while there is one.
fn steps(t: &mut [u16], len: usize, system: &System, units: u32) -> Out
    requires len_le_most_nodes { (len ≤ most_nodes) × (length t.old ≡ most_nodes) }
    ensures { ReachedOuter system.now.table.now system.now.rules.now system.now.count t.old len units t.new result }
{
    redex::size_cells(&mut t[0..len], system.table);
    let mut l = len;
    let mut u = units;
    let mut clean = 0;
    loop {
        let r = step(t, l, clean, system, u);
        let Step::Rewritten = r.step else {
            return r;
        };
        l = r.len;
        u = r.units;
        clean = r.end;
    }
}

// The last term of the term t, from the outside in, by the rules of a system, for at most `units` steps, to the front of `out`.
pub fn normalise(t: &[u8], system: System, units: u32, out: &mut [u8]) -> Reached
    requires t_len_bound { (length t.now ≤ most_nodes) × (most_nodes ≤ length out.old) }
    ensures { Normalised normalise_outer system.entry.table.now system.entry.rules.now system.entry.count t.now out.old out.new units result }
{
    let mut cells = [0u16; NODES];
    normaliser::load(t, &mut cells);
    let r = steps(&mut cells, t.len(), &system, units);
    let n = r.len;
    normaliser::unload(&cells[0..n], out);
    Reached {
        form: normaliser::form_of(r.step, n),
        paid: units - r.units,
    }
}
