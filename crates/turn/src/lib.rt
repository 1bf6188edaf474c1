// A turn of the run: from a state to the next; or, where the turn ends the run, to the state as at its beginning with the units that are left.
#![tactic(auto)]

ghost use Rattle.std.specs.Prelude.{◌+◌, ◌<◌, ◌≤◌};
ghost use Rattle.limits.specs.Limits.{most_pairs, most_equations};
ghost use Rattle.slots.specs.Slots.{Layout};
ghost use Rattle.state.specs.Run.{Fine};
ghost use Rattle.turn.specs.Turns.{Looks, Turns};

use forms::{Due, Taken};
use orient::Unoriented;
use rewriting::End;
use slots::{SLOT, System};
use state::{State, Turned};

// What waits: behind so many live rules so many pairs, of which the last so many were put back.
#[derive(Clone, Copy)]
pub struct Waiting {
    pub live: usize,
    pub count: usize,
    pub back: usize,
}

// Step 1 behind its unit: the forms of the oldest equation that waits, unless all of these have been put back; where none waits, of the first pair
// that the scan finds.
fn look(pairs: &[u8], w: Waiting, inputs: &[u8], count: usize, table: &[u8], units: u32) -> Taken
    requires layout { Layout pairs.now w.live × (w.live ≤ most_pairs) × (0 < w.count → Layout pairs.now (w.live + 1)) }
    requires layout_2 { Layout inputs.now count × (count ≤ most_equations) }
    ensures { Looks table.now pairs.now w inputs.now count units result }
{
    if w.count == 0 {
        let system = System {
            table,
            rules: pairs,
            count: w.live,
        };
        return scanning::scan(inputs, count, system, units);
    }
    if w.back >= w.count {
        return Taken {
            found: Err(End::NeitherAbove),
            units,
            pair: [0u8; SLOT],
        };
    }
    forms::oldest(pairs, w.live, table, units)
}

// A turn, with the input equations. Its unit is paid first; a stop hands back the state as the turn began it. So a rule's entry may come before step 7,
// which is lent the slots: a method behind that copies the state twice more. A function, or a result within an expression, copies it as well: each
// method is called here, where the state is, and what is handed on has its own name.
pub fn turn(st: State, inputs: &[u8], count: usize, table: &[u8]) -> Turned
    requires { Fine st × Layout inputs.now count × (count ≤ most_equations) }
    ensures { Turns table.now inputs.now count st result }
{
    if st.units == 0 {
        return st.ended(End::Spent, 0);
    }
    let st = st.begin();
    let w = Waiting {
        live: st.live,
        count: st.pairs.count - st.live,
        back: st.back,
    };
    let t = look(&st.pairs.bytes, w, inputs, count, table, st.units);
    match forms::due_after(t, w.count > 0, st.log.count) {
        Err(end) => return st.ended(end, t.units),
        Ok(Due::Settle) => return st.take().settle(&t.pair).goes_on(t.units),
        Ok(Due::Make) => {}
    }
    let rest = st.take();
    let placed = match rest.orient(&t.pair, table) {
        Ok(placed) => placed,
        Err(Unoriented::Neither) => return rest.put_back(&t.pair).goes_on(t.units),
        Err(Unoriented::TooLarge) => return st.ended(End::TooLarge, t.units),
    };
    let collapsed = placed.collapse(table);
    // Kept: two names, since the state is copied twice more with one.
    let entered = collapsed.enter_rule(&t.pair);
    let mut next = entered;
    let c = compose::compose_few(next.live, &mut next.pairs.bytes, table, t.units);
    if let Some(end) = c.end {
        return st.ended(end, c.units);
    }
    next.goes_on(c.units)
}
