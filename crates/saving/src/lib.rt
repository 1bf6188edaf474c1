// A saved record's bytes: the fields of the symbols and the equations as they stand in lent bytes, then those of a state.
#![tactic(auto)]

ghost use mathlib.Core.List.{flat_map};
ghost use Rattle.std.specs.Prelude.{◌+◌, ◌*◌, ◌≤◌, length};
ghost use Rattle.limits.specs.Limits.{most_equations, most_symbols, field_head, forms_width, waiting_width, longest_saved};
ghost use Rattle.terms.specs.Base.{field_bytes};
ghost use Rattle.fields.specs.Adds.{AddsSome};
ghost use Rattle.slots.specs.Slots.{Layout};
ghost use Rattle.items.specs.Written.{each};
ghost use Rattle.state.specs.Run.{Fine};
ghost use Rattle.saving.specs.Saves.{waiting_slot, state_bytes, state_width, PutsEquation, PutsEquations, Saves};

use fields::Writer;
use limits::FIELD_HEAD;
use state::State;

// The equation field at `from`, if it has a pair's length.
fn put_equation(w: &mut Writer, source: &[u8], from: usize, end: usize)
    requires { (w.old.at + forms_width ≤ length w.old.out.now) × (from + field_head ≤ end) × (end ≤ length source.now) }
    ensures { PutsEquation source.now from end w.old w.new }
{
    let start = from + FIELD_HEAD;
    if end - start <= limits::PAIR {
        w.field(problem::EQUATION_TAG, &source[start..end]);
    }
}

// Field 03, once an equation: so many, whose fields start at `from`.
fn put_equations(w: &mut Writer, source: &[u8], from: usize, count: usize)
    requires { w.old.at + forms_width * count ≤ length w.old.out.now }
    ensures { PutsEquations source.now from count w.old w.new }
{
    let mut i = from;
    for k in 0..count {
        let Ok(e) = reading::due(source, i, problem::EQUATION_TAG) else {
            return;
        };
        put_equation(w, source, i, e);
        i = e;
    }
}

// Field 21 of the equation in slot k: its mark is its origin.
fn put_candidate(w: &mut Writer, pairs: &[u8], k: usize)
    requires waiting_width_in_bounds { w.old.at + waiting_width ≤ length w.old.out.now }
    requires layout { Layout pairs.now (k + 1) }
    ensures { AddsSome waiting_width w.old w.new 1 (field_bytes (waiting_slot pairs.now k)) }
{
    let mark = slots::mark(pairs, k);
    items::put_pair(w, checkpoint::WAITING, &mark, pairs, k);
}

// Field 21, once a waiting equation: so many, in the slots behind the live rules.
fn put_waiting(w: &mut Writer, pairs: &[u8], live: usize, count: usize)
    requires count_in_bounds { w.old.at + waiting_width * count ≤ length w.old.out.now }
    requires layout { Layout pairs.now (live + count) }
    ensures { AddsSome waiting_width w.old w.new count (flat_map field_bytes (each (waiting_slot pairs.now) live count)) }
{
    for i in 0..count {
        put_candidate(w, pairs, live + i);
    }
}

// The fields of a state.
fn put_state(state: State, w: &mut Writer)
    requires state_width_in_bounds { w.old.at + state_width ≤ length w.old.out.now }
    requires fine { Fine state }
    ensures { AddsSome state_width w.old w.new 1 (state_bytes state) }
{
    let live = state.live;
    w.number_field(checkpoint::NEXT, 2, (state.made + 1) as u32);
    items::put_rules(w, &state.pairs.bytes, live);
    put_waiting(w, &state.pairs.bytes, live, state.pairs.count - live);
    items::put_log(w, &state.log.bytes, state.log.count);
    w.number_field(checkpoint::BACK, 1, state.back as u32);
}

// The saved record of a state. Its theory stands in lent bytes: the table of its symbols, and so many fields of equations from a place on. Its bytes
// are at the front, and their count is returned.
pub fn save(
    state: State,
    table: &[u8],
    source: &[u8],
    from: usize,
    count: usize,
    out: &mut [u8],
) -> usize
    requires longest_saved_in_bounds { longest_saved ≤ length out.old }
    requires table_len_bound { (length table.now ≤ 2 * most_symbols) × (count ≤ most_equations) × Fine state }
    ensures { Saves state table.now source.now from count out.old out.new result }
{
    let mut w = Writer { out, at: 0 };
    w.field(problem::SYMBOLS_TAG, table);
    put_equations(&mut w, source, from, count);
    put_state(state, &mut w);
    w.at
}
