// The result's bytes: its fields, one behind the other.
#![tactic(auto)]

ghost use Rattle.std.specs.Prelude.{◌+◌, ◌≤◌, length};
ghost use Rattle.limits.specs.Limits.{forms_width, most_result};
ghost use Rattle.fields.specs.Adds.{AddsSome};
ghost use Rattle.slots.specs.Slots.{Layout};
ghost use Rattle.state.specs.Run.{Fine};
ghost use Rattle.report.specs.Report.{oldest_if, Reports};

use fields::Writer;
use rewriting::End;
use state::State;

// Field 14, only with end 20: the oldest one waiting, which stands behind the live rules.
fn put_oldest(w: &mut Writer, end: End, pairs: &[u8], live: usize, count: usize)
    requires { (w.old.at + forms_width ≤ length w.old.out.now) × Layout pairs.now count }
    ensures { AddsSome forms_width w.old w.new 1 (oldest_if end pairs.now live count) }
{
    let End::NeitherAbove = end else {
        return;
    };
    if live < count {
        items::put_pair(w, items::FORMS, &pairs[0..0], pairs, live);
    }
}

// The result of a run, from its last state, its end and the units paid: its bytes at the front, and their count.
pub fn report(state: State, end: End, paid: u32, out: &mut [u8]) -> usize
    requires most_result_in_bounds { most_result ≤ length out.old }
    requires fine { Fine state }
    ensures { Reports state end paid out.old out.new result }
{
    let live = state.live;
    let mut w = Writer { out, at: 0 };
    w.number_field(items::END, 1, u8::from(end) as u32);
    w.number_field(items::UNITS, 4, paid);
    items::put_rules(&mut w, &state.pairs.bytes, live);
    items::put_log(&mut w, &state.log.bytes, state.log.count);
    put_oldest(&mut w, end, &state.pairs.bytes, live, state.pairs.count);
    w.at
}
