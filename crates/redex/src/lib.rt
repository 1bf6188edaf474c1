// The lowest rule that matches at a node, and the step there. The rules stand in slots and the term in cells. `fits`, `find`, `contract`, `contract_at`
// and `size_cells` ask for no normal subterm; of `rewrite`, which is built of them, the arguments are normal.
#![tactic(auto)]

ghost use Rattle.std.specs.Prelude.{◌≡◌, ◌+◌, ◌-◌, ◌<◌, ◌≤◌, length, take, drop};
ghost use Rattle.limits.specs.Limits.{most_nodes, most_variables};
ghost use Rattle.slots.specs.Slots.{slot, right_of, Layout};
ghost use Rattle.matching.specs.Held.{Within};
ghost use Rattle.matching.specs.Pieces.{Put, replaced};
ghost use Rattle.redex.specs.Step.{Fitted, FoundRule, out, RewritesRoot};
ghost use Rattle.redex.specs.Contraction.{TermsTake, OpenPlaces, CellsSized, ContractedAt};

use limits::NODES;
use slots::System;

// Whether rule k matches at the start of t.
pub fn fits(rules: &[u8], k: usize, t: &[u16], binds: &mut [u8]) -> bool
    requires layout { Layout rules.now (k + 1) }
    requires t_nonzero { (0 < length t.now) × (length t.now ≤ most_nodes) × (most_variables ≤ length binds.old) }
    ensures { Fitted rules.now t.now k binds.old result binds.new }
{
    let b = slots::left_root(rules, k);
    if b < limits::VARIABLE && matching::byte_of(t[0]) != b {
        return false;
    }
    matching::matches(slots::left(rules, k), t, binds)
}

// The lowest rule that matches at the start of t.
pub fn find(system: &System, t: &[u16], binds: &mut [u8]) -> Option<usize>
    requires t_nonzero { (0 < length t.now) × (length t.now ≤ most_nodes) × (most_variables ≤ length binds.old) }
    ensures { FoundRule system.now.rules.now t.now system.now.count result binds.old binds.new }
{
    // Taken once, in front of the loop: it would be read again for each rule, since `binds` is written in between.
    let rules = system.rules;
    for k in 0..system.count {
        if fits(rules, k, t, binds) {
            return Some(k);
        }
    }
    None
}

// The term at the start of t, which ends at `end`, gives way to the instance of rule k's right side: how many cells are in use then.
fn contract(
    t: &mut [u16],
    len: usize,
    end: usize,
    most: usize,
    rules: &[u8],
    k: usize,
    binds: &[u8],
) -> Option<usize>
    requires layout { Layout rules.now (k + 1) }
    requires end_le_len { (end ≤ len) × (len ≤ most) × (most ≤ length t.old) × (most ≤ most_nodes) }
    requires most_variables_in_bounds { (most_variables ≤ length binds.now) × Within (take len t.old) binds.now }
    ensures { Put t.old t.new 0 most result
        (replaced (take len t.old) binds.now (right_of (slot rules.now k)) end) }
{
    matching::replace(t, len, end, most, slots::right(rules, k), binds)
}

// What came of a term.
#[derive(Clone, Copy, Debug, PartialEq, Eq)]
pub enum Step {
    Normal,
    // A step was made at the root.
    Rewritten,
    // A step is due, and no unit is left.
    Spent,
    // The step's term is too large.
    TooLarge,
    // No term stands there.
    NoTerm,
}

#[derive(Drop)]
pub struct Out {
    pub step: Step,
    pub units: u32,
    pub len: usize,
    pub end: usize,
}

// Kept: one line at each return, where a literal takes six.
pub fn ended(step: Step, units: u32, len: usize, end: usize) -> Out
    ensures { result ≡ out step units len end }
{
    Out {
        step,
        units,
        len,
        end,
    }
}

// The term at the start of t, whose arguments are normal, ends at `end`: its root's cell has its size, and one step is made there if a rule matches.
pub fn rewrite(
    t: &mut [u16],
    len: usize,
    end: usize,
    most: usize,
    system: &System,
    units: u32,
) -> Out
    requires end_nonzero { (0 < end) × (end ≤ len) × (len ≤ most) × (most ≤ length t.old) × (most ≤ most_nodes) }
    ensures { RewritesRoot system.now.rules.now system.now.count t.old t.new len end most units result }
{
    t[0] = matching::sized(t[0], end);
    let mut binds = [0u8; limits::VARIABLES];
    let Some(k) = find(system, &t[0..len], &mut binds) else {
        return ended(Step::Normal, units, len, end);
    };
    if units == 0 {
        return ended(Step::Spent, 0, len, end);
    }
    let Some(w) = contract(t, len, end, most, system.rules, k, &binds) else {
        return ended(Step::TooLarge, units - 1, len, end);
    };
    ended(Step::Rewritten, units - 1, w, 0)
}

// How many cells the n terms at the start of t take; all, where the cells end before.
fn terms_take(t: &[u16], n: usize) -> usize
    requires { length t.now ≤ most_nodes }
    ensures { TermsTake t.now n result }
{
    let mut e = 0;
    for _ in 0..n {
        if e >= t.len() {
            return t.len();
        }
        e += matching::size_of(t[e]);
    }
    e.min(t.len())
}

// The places of the cells that have no size, ascending; a subterm that has one is passed by it.
fn open_places(t: &[u16], places: &mut [u8]) -> usize
    requires { (length t.now ≤ most_nodes) × (most_nodes ≤ length places.old) }
    ensures { OpenPlaces t.now places.old places.new result }
{
    // Kept: i moves by a subterm's size.
    let mut i = 0;
    let mut count = 0;
    while i < t.len() {
        let n = matching::size_of(t[i]);
        if n == 0 {
            places[count] = i as u8;
            count += 1;
            i += 1;
        } else {
            i += n;
        }
    }
    count
}

// Each cell that has none gets the size of its subterm, from the last to the first.
pub fn size_cells(t: &mut [u16], table: &[u8])
    requires { length t.old ≤ most_nodes }
    ensures { CellsSized table.now t.old t.new }
{
    let mut places = [0u8; NODES];
    let count = open_places(t, &mut places);
    for k in (0..count).rev() {
        let i = usize::from(places[k]);
        let n = terms::owed_by(table, matching::byte_of(t[i]));
        let e = terms_take(&t[i + 1..], n);
        t[i] = matching::sized(t[i], e + 1);
    }
}

// Of the first `len` cells the term at `at`, whose cell has its size, gives way to the instance of rule k's right side: how many are in use then; none
// where they would be over `NODES`, or where the term does not end in the first `len`.
pub fn contract_at(
    t: &mut [u16],
    len: usize,
    at: usize,
    rules: &[u8],
    k: usize,
    binds: &[u8],
) -> Option<usize>
    requires layout { Layout rules.now (k + 1) }
    requires at_lt_len { (at < len) × (len ≤ most_nodes) × (length t.old ≡ most_nodes) }
    requires most_variables_in_bounds { (most_variables ≤ length binds.now) × Within (take (len - at) (drop at t.old)) binds.now }
    ensures { ContractedAt t.old len at (right_of (slot rules.now k)) binds.now t.new result }
{
    let n = matching::size_of(t[at]);
    if len - at < n {
        return None;
    }
    let w = contract(&mut t[at..], len - at, n, NODES - at, rules, k, binds)?;
    Some(at + w)
}
