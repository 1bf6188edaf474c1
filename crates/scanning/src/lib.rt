// The scan: the overlaps of the rules in order, then the input equations, up to the first pair with two different normal forms.
#![tactic(auto)]

mod spots;

ghost use Rattle.std.specs.Prelude.{◌<◌, ◌≤◌, length};
ghost use Rattle.limits.specs.Limits.{most_pairs, most_equations};
ghost use Rattle.slots.specs.Slots.{slot, left_length, Layout};
ghost use Rattle.scanning.specs.Walk.{Walks, RulesIn, OverlapsAt, at_place, of_rules, InSlots, of_inputs, of_all, AllEqual, ScanIs};

use forms::Taken;
use joining::{Joined, Walk};
use overlaps::Met;
use rewriting::End;
use slots::{SLOT, System, origins};
use spots::Spot;

// Whether a walk goes on: each pair so far came to equal terms.
fn all_equal(found: Result<Joined, End>) -> bool
    ensures { AllEqual found result }
{
    match found {
        Ok(joined) => match joined {
            Joined::Equal => true,
            Joined::Different => false,
        },
        Err(_) => false,
    }
}

// The overlap at one place, where one is possible.
fn scan_at(system: System, at: Spot, units: u32, pair: &mut [u8]) -> Walk
    requires layout { Layout pair.old 1 }
    requires inner_lt_count { (at.inner < system.count) × (at.outer < system.count) × (at.position < left_length (slot system.rules.now at.outer)) }
    ensures { Walks (OverlapsAt system.entry.table.now system.entry.rules.now system.entry.count at) (at_place at) system.entry.table.now pair.old
        pair.new units result }
{
    let Spot {
        inner,
        outer,
        position,
    } = at;
    let mut peak = [0u8; SLOT];
    match overlaps::overlap(system, inner, outer, position, &mut peak) {
        Met::Nothing => Walk {
            found: Ok(Joined::Equal),
            units,
        },
        Met::TooLarge => Walk {
            found: Err(End::TooLarge),
            units,
        },
        Met::Pair => {
            let mark = origins::overlapping(system.rules, inner, outer, position);
            slots::put_mark(pair, 0, &mark);
            forms::join(&peak, 0, system, units, pair)
        }
    }
}

// All overlaps, place by place.
fn scan_rules(system: System, units: u32, pair: &mut [u8]) -> Walk
    requires { (system.count ≤ most_pairs) × Layout pair.old 1 }
    ensures { Walks (RulesIn system.entry.table.now system.entry.rules.now system.entry.count) (of_rules 0) system.entry.table.now pair.old
        pair.new units result }
{
    let mut at = spots::spot_at(0, 0, spots::BELOW_ROOT);
    let mut u = units;
    while at.outer < system.count {
        if overlaps::possible(system, at.inner, at.outer, at.position) {
            let w = scan_at(system, at, u, pair);
            if !all_equal(w.found) {
                return w;
            }
            u = w.units;
        }
        at = spots::next(system.rules, at);
    }
    Walk {
        found: Ok(Joined::Equal),
        units: u,
    }
}

// The input equations.
fn scan_inputs(inputs: &[u8], number: usize, system: System, units: u32, pair: &mut [u8]) -> Walk
    requires { Layout inputs.now number × (number ≤ most_equations) × Layout pair.old 1 }
    ensures { Walks (InSlots system.entry.table.now system.entry.rules.now system.entry.count inputs.now number) (of_inputs 0) system.entry.table.now
        pair.old pair.new units result }
{
    let mut u = units;
    for k in 0..number {
        let mark = origins::numbered(origins::SCANNED_INPUT, (k + 1) as u16);
        slots::put_mark(pair, 0, &mark);
        let w = forms::join(inputs, k, system, u, pair);
        if !all_equal(w.found) {
            return w;
        }
        u = w.units;
    }
    Walk {
        found: Ok(Joined::Equal),
        units: u,
    }
}

// All overlaps, then the input equations.
fn scan_all(inputs: &[u8], number: usize, system: System, units: u32, pair: &mut [u8]) -> Walk
    requires { (system.count ≤ most_pairs) × Layout inputs.now number × (number ≤ most_equations) × Layout pair.old 1 }
    ensures { Walks (InSlots system.entry.table.now system.entry.rules.now system.entry.count inputs.now number) of_all system.entry.table.now
        pair.old pair.new units result }
{
    let w = scan_rules(system, units, pair);
    if !all_equal(w.found) {
        return w;
    }
    scan_inputs(inputs, number, system, w.units, pair)
}

// The first pair with two different normal forms, if there is one.
pub fn scan(inputs: &[u8], number: usize, system: System, units: u32) -> Taken
    requires { (system.count ≤ most_pairs) × Layout inputs.now number × (number ≤ most_equations) }
    ensures { ScanIs system.entry.table.now inputs.now number system.entry.rules.now system.entry.count units result }
{
    let mut pair = [0u8; SLOT];
    let w = scan_all(inputs, number, system, units, &mut pair);
    forms::with_pair(w, pair)
}
