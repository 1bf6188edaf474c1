// Normalising terms by rules in slots. Inside, a term stands in cells: a subterm that is known to be normal has its size in its cell.
#![tactic(auto)]

ghost use Rattle.std.specs.Prelude.{◌≡◌, ◌++◌, ◌≤◌, length, drop};
ghost use Rattle.limits.specs.Limits.{most_nodes, cell_base};
ghost use Rattle.rewriting.specs.Rewrite.{normalise};
ghost use Rattle.matching.specs.Cells.{node_bytes};
ghost use Rattle.normaliser.specs.Settled.{LeftNormal, Settled, SettledAll, end_of, form_after, Normalised, Reducible};

use limits::NODES;
use redex::{Out, Step};
use rewriting::End;
use slots::System;

// The first cell that has a size.
const SIZED: u16 = limits::CELL;

// The term at the start, whose root has the cell c, is normal. It would be no term where it ends beyond len.
fn leave(c: u16, len: usize, units: u32) -> Out
    requires { cell_base ≤ c }
    ensures { LeftNormal c len units result }
{
    let e = matching::size_of(c);
    if e > len {
        return redex::ended(Step::NoTerm, units, len, 0);
    }
    redex::ended(Step::Normal, units, len, e)
}

// Normalises the term at the start of t, of which `len` cells are in use and at most `most` may be.
#[cycle(normalise)]
fn normalise_in(t: &mut [u16], len: usize, most: usize, system: &System, units: u32) -> Out
    requires len_le_most { (len ≤ most) × (most ≤ length t.old) × (most ≤ most_nodes) }
    ensures { Settled system.now.table.now system.now.rules.now system.now.count t.old t.new len most units result }
{
    let mut l = len;
    let mut u = units;
    loop {
        if l == 0 {
            return redex::ended(Step::NoTerm, u, 0, 0);
        }
        let c = t[0];
        if c >= SIZED {
            return leave(c, l, u);
        }
        let n = terms::owed_by(system.table, matching::byte_of(c));
        let r = normalise_all(&mut t[1..], n, l - 1, most - 1, system, u);
        let Step::Normal = r.step else {
            return r;
        };
        let s = redex::rewrite(t, r.len + 1, r.end + 1, most, system, r.units);
        let Step::Rewritten = s.step else {
            return s;
        };
        l = s.len;
        u = s.units;
    }
}

// Normalises the n terms at the start of t.
#[cycle(normalise)]
fn normalise_all(
    t: &mut [u16],
    n: usize,
    len: usize,
    most: usize,
    system: &System,
    units: u32,
) -> Out
    requires len_le_most { (len ≤ most) × (most ≤ length t.old) × (most ≤ most_nodes) }
    ensures { SettledAll system.now.table.now system.now.rules.now system.now.count t.old t.new n len most units result }
{
    let mut p = 0;
    let mut l = len;
    let mut u = units;
    for _ in 0..n {
        let r = normalise_in(&mut t[p..], l - p, most - p, system, u);
        let Step::Normal = r.step else {
            return r;
        };
        l = r.len + p;
        p = r.end + p;
        u = r.units;
    }
    redex::ended(Step::Normal, u, l, p)
}

// The bytes of t as cells: nothing is known to be normal.
pub fn load(t: &[u8], cells: &mut [u16])
    requires { length t.now ≤ length cells.old }
    ensures { cells.new ≡ t.now ++ drop (length t.now) cells.old }
{
    for i in 0..t.len() {
        cells[i] = u16::from(t[i]);
    }
}

// The nodes' bytes to the front of t.
pub fn unload(cells: &[u16], t: &mut [u8])
    requires { length cells.now ≤ length t.old }
    ensures { t.new ≡ node_bytes cells.now ++ drop (length cells.now) t.old }
{
    for i in 0..cells.len() {
        t[i] = matching::byte_of(cells[i]);
    }
}

// Whether some rule matches some node of the term t: a step would be due.
pub fn reducible(t: &[u8], system: System) -> bool
    requires t_len_bound { length t.now ≤ most_nodes }
    ensures { Reducible system.entry.table.now system.entry.rules.now system.entry.count t.now result }
{
    let mut cells = [0u16; NODES];
    load(t, &mut cells);
    let r = normalise_in(&mut cells, t.len(), NODES, &system, 0);
    matches!(r.step, Step::Spent)
}

// Why a term came to no last one.
#[derive(Clone, Copy, Debug, PartialEq, Eq)]
pub enum Stop {
    // A step is due, and no unit is left.
    Spent,
    // A step's term is too large.
    TooLarge,
}

// The end of a run that stops so.
impl From<Stop> for End {
    ghost from_gives = { λ stop end. end ≡ end_of stop };

    fn from(stop: Stop) -> End {
        match stop {
            Stop::Spent => End::Spent,
            Stop::TooLarge => End::TooLarge,
        }
    }
}

#[derive(Drop)]
pub struct Reached {
    // The length of the last term, whose bytes are at the front of those lent.
    pub form: Result<usize, Stop>,
    // The units paid, one a step.
    pub paid: u32,
}

// How the walk over a term ended. Bytes that are no term do not come here.
pub fn form_of(step: Step, len: usize) -> Result<usize, Stop>
    ensures { result ≡ form_after step len }
{
    match step {
        Step::Normal => Ok(len),
        Step::Spent => Err(Stop::Spent),
        _ => Err(Stop::TooLarge),
    }
}

// The normal form of the term t, by the rules of a system, for at most `units` steps, to the front of `out`.
pub fn normalise(t: &[u8], system: System, units: u32, out: &mut [u8]) -> Reached
    requires t_len_bound { (length t.now ≤ most_nodes) × (most_nodes ≤ length out.old) }
    ensures { Normalised normalise system.entry.table.now system.entry.rules.now system.entry.count t.now out.old out.new units result }
{
    let mut cells = [0u16; NODES];
    load(t, &mut cells);
    let r = normalise_in(&mut cells, t.len(), NODES, &system, units);
    let n = r.len;
    unload(&cells[0..n], out);
    Reached {
        form: form_of(r.step, n),
        paid: units - r.units,
    }
}
