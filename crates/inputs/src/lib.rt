// Input equations, read from lent bytes: each renamed as a pair, in slots, marked as they wait at first.
#![tactic(auto)]

ghost use Rattle.std.specs.Prelude.{◌+◌, ◌*◌, ◌<◌, ◌≤◌, length};
ghost use Rattle.limits.specs.Limits.{most_equations, two_byte_values};
ghost use Rattle.slots.specs.Slots.{slot_width};
ghost use Rattle.inputs.specs.Inputs.{SideEnd, PutsSides, PutsEquation, InputsRead};

use limits::{FIELD_HEAD, NODES};
use slots::{Pairs, origins};

// The end of the side that starts at `at`; at the latest it ends before a byte above the last variable's, and after 120 bytes.
fn side_end(source: &[u8], table: &[u8], at: usize) -> usize
    requires { (at ≤ length source.now) × (length source.now ≤ two_byte_values) }
    ensures { SideEnd table.now source.now at result }
{
    let e = terms::term_end(source, table, at);
    for i in at..e {
        if i - at >= NODES || source[i] > limits::LAST_VARIABLE {
            return i;
        }
    }
    e
}

// The two sides that start at `at`, renamed together, into slot k.
fn put_sides(source: &[u8], table: &[u8], at: usize, slots: &mut [u8], k: usize)
    requires k_in_bounds { slot_width * (k + 1) ≤ length slots.old }
    requires at_in_bounds { (at ≤ length source.now) × (length source.now ≤ two_byte_values) }
    ensures { PutsSides table.now source.now at slots.old k slots.new }
{
    let m = side_end(source, table, at);
    let e = side_end(source, table, m);
    let mut held = [0u8; limits::PAIR];
    fields::paste(&mut held, 0, &source[at..e]);
    naming::rename_front(&mut held, e - at);
    let n = m - at;
    let end = e - at;
    let both = &held[..];
    slots::put_sides(slots, k, &both[0..n], &both[n..end]);
}

// The equation field at `at`, into slot k: the place behind it. Where there is none, the slot keeps its sides.
fn put_equation(source: &[u8], table: &[u8], at: usize, slots: &mut [u8], k: usize) -> usize
    requires k_in_bounds { (slot_width * (k + 1) ≤ length slots.old) × (k < most_equations) }
    requires source_len_bound { length source.now ≤ two_byte_values }
    ensures { PutsEquation table.now source.now at slots.old k slots.new result }
{
    let mark = origins::numbered(origins::WAITING_INPUT, (k + 1) as u16);
    slots::put_mark(slots, k, &mark);
    let Ok(e) = reading::due(source, at, problem::EQUATION_TAG) else {
        return at;
    };
    put_sides(source, table, at + FIELD_HEAD, slots, k);
    e
}

// The equations whose fields start at `at`, over the symbols of the table.
pub fn read(source: &[u8], table: &[u8], at: usize, count: usize) -> Pairs
    requires { (length source.now ≤ two_byte_values) × (count ≤ most_equations) }
    ensures { InputsRead table.now source.now at count result }
{
    let mut slots = [0u8; slots::ROOM];
    let mut i = at;
    for k in 0..count {
        i = put_equation(source, table, i, &mut slots, k);
    }
    Pairs {
        bytes: slots,
        count: count,
    }
}
