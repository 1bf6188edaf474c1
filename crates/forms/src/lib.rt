// A pair's two normal forms, compared; and what is due then.
#![tactic(auto)]

ghost use Rattle.std.specs.Prelude.{◌≡◌, ◌+◌};
ghost use Rattle.slots.specs.Slots.{Layout};
ghost use Rattle.forms.specs.Forms.{PairWalk, OldestIs, with_room, due_after};

use joining::{Joined, Strategy, Walk};
use rewriting::End;
use slots::{SLOT, System};

// The pair in slot k of a list, normalised by the rules, left then right, and compared.
pub fn join(list: &[u8], k: usize, system: System, units: u32, pair: &mut [u8]) -> Walk
    requires { Layout list.now (k + 1) × Layout pair.old 1 }
    ensures { PairWalk system.entry.table.now list.now k system.entry.rules.now system.entry.count pair.old pair.new units result }
{
    let left = slots::left(list, k);
    let right = slots::right(list, k);
    joining::join(Strategy::Innermost, left, right, system, units, pair)
}

// The pair that a turn takes: its forms, where they differ, and its origin.
#[derive(Clone, Copy)]
pub struct Taken {
    pub found: Result<Joined, End>,
    pub units: u32,
    pub pair: [u8; SLOT],
}

pub fn with_pair(w: Walk, pair: [u8; SLOT]) -> Taken
    ensures { result ≡ record { found = w.found; units = w.units; pair = pair } }
{
    Taken {
        found: w.found,
        units: w.units,
        pair,
    }
}

// The oldest waiting equation, which stands behind the live rules.
pub fn oldest(pairs: &[u8], live: usize, table: &[u8], units: u32) -> Taken
    requires { Layout pairs.now (live + 1) }
    ensures { OldestIs table.now pairs.now live units result }
{
    let mut pair = [0u8; SLOT];
    let mark = slots::mark(pairs, live);
    slots::put_mark(&mut pair, 0, &mark);
    let system = System {
        table,
        rules: pairs,
        count: live,
    };
    let w = join(pairs, live, system, units, &mut pair);
    with_pair(w, pair)
}

// What is due once the forms are known, where the run goes on.
#[derive(Clone, Copy, Debug, PartialEq, Eq)]
pub enum Due {
    Settle,
    Make,
}

// Step 2: with 512 entries in the log there is no room for another.
fn with_room(entries: usize, due: Result<Due, End>) -> Result<Due, End>
    ensures { result ≡ with_room entries due }
{
    if entries >= limits::ENTRIES {
        return Err(End::LogFull);
    }
    due
}

// Steps 1 to 3: what follows from what was found.
pub fn due_after(t: Taken, waits: bool, entries: usize) -> Result<Due, End>
    ensures { result ≡ due_after t.found waits entries }
{
    match t.found? {
        Joined::Different => with_room(entries, Ok(Due::Make)),
        Joined::Equal => {
            if !waits {
                return Err(End::Complete);
            }
            with_room(entries, Ok(Due::Settle))
        }
    }
}
