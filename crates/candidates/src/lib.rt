// The fields of a saved record that have an origin, read front to back: its waiting equations into slots, its log into bytes. A field that is bad has its
// first byte for a place.
#![tactic(auto)]

ghost use Rattle.std.specs.Prelude.{◌≡◌, ◌+◌, ◌*◌, ◌≤◌, length, drop};
ghost use Rattle.limits.specs.Limits.{most_pairs, most_rules, most_entries, most_saved, origin_width};
ghost use Rattle.fields.specs.Puts.{patched};
ghost use Rattle.reading.specs.Answers.{Table};
ghost use Rattle.slots.specs.Slots.{slot_width};
ghost use Rattle.items.specs.Written.{logged_width};
ghost use Rattle.candidates.specs.Candidates.{origin_test, origin_copy, entry_copy, IsWaiting, IsWaitings, IsEntry, IsLog};

use checkpoint::WAITING;
use items::{BadField, Group};
use limits::{FIELD_HEAD, ORIGIN};
use slots::origins;

// Where an origin has its second number and its position.
const SECOND: usize = 3;

const POSITION: usize = 5;

// The field of a waiting equation before its left side: the field's head, and an origin.
const WAITING_HEAD: usize = FIELD_HEAD + ORIGIN;

// Whether the six bytes from a place on are an origin: its kind is 1 to 4, and its second number and position are 0 unless the kind is 4.
fn is_origin(saved: &[u8], at: usize) -> bool
    requires { at + origin_width ≤ length saved.now }
    ensures { result ≡ origin_test (drop at saved.now) }
{
    let kind = saved[at];
    if kind == 0 || kind > origins::OVERLAPPING {
        return false;
    }
    if kind == origins::OVERLAPPING {
        return true;
    }
    let second = reading::number(saved, at + SECOND, 2);
    let position = usize::from(saved[at + POSITION]);
    second + position == 0
}

// The origin that the six bytes from a place on are, as a mark.
fn origin_at(saved: &[u8], at: usize) -> [u8; ORIGIN]
    requires { at + origin_width ≤ length saved.now }
    ensures { result ≡ origin_copy (drop at saved.now) }
{
    let mut mark = [0u8; ORIGIN];
    mark[0] = saved[at];
    let first = reading::number(saved, at + origins::FIRST, 2);
    let second = reading::number(saved, at + SECOND, 2);
    let position = usize::from(saved[at + POSITION]);
    fields::put_number(&mut mark, origins::FIRST, 2, first as u32);
    fields::put_number(&mut mark, SECOND, 2, second as u32);
    fields::put_number(&mut mark, POSITION, 1, position as u32);
    mark
}

// Where a waiting equation's right side begins, and where its field ends.
#[derive(Clone, Copy, Debug, PartialEq, Eq)]
pub struct WaitingField {
    pub middle: usize,
    pub end: usize,
}

// Field 21, a waiting equation; none if it is bad.
fn waiting_field(saved: &[u8], table: &[u8], at: usize) -> Option<WaitingField>
    requires table { Table table.now }
    requires saved_len_bound { length saved.now ≤ most_saved }
    ensures { IsWaiting table.now saved.now at result }
{
    let Ok(end) = reading::due(saved, at, WAITING) else {
        return None;
    };
    let start = at + WAITING_HEAD;
    if end < start || !is_origin(saved, at + FIELD_HEAD) {
        return None;
    }
    let middle = items::renamed_pair(saved, table, start, end)?;
    Some(WaitingField { middle, end })
}

// The waiting equations' fields from a place on, into the slots behind the live rules: at most 33 together, and so many are then held.
pub fn read_waiting(
    saved: &[u8],
    table: &[u8],
    at: usize,
    live: usize,
    slots: &mut [u8],
) -> Result<Group, BadField>
    requires table { Table table.now }
    requires at_in_bounds { (at ≤ length saved.now) × (length saved.now ≤ most_saved) × (live ≤ most_rules) }
    requires most_pairs_in_bounds { slot_width * most_pairs ≤ length slots.old }
    ensures { IsWaitings table.now saved.now at live slots.old slots.new result }
{
    let mut k = live;
    let mut i = at;
    // Kept: a step of this loop is as long as a field, so no iterator of the library is plainer.
    while i < saved.len() && saved[i] == WAITING && k < limits::PAIRS {
        let Some(field) = waiting_field(saved, table, i) else {
            return Err(BadField { place: i });
        };
        let mark = origin_at(saved, i + FIELD_HEAD);
        items::hold_pair(
            saved,
            i + WAITING_HEAD,
            field.middle,
            field.end,
            &mark,
            slots,
            k,
        );
        k += 1;
        i = field.end;
    }
    Ok(Group { count: k, end: i })
}

// Field 13, with an origin: the place behind it.
fn entry_field(saved: &[u8], at: usize) -> Result<usize, BadField>
    ensures { IsEntry saved.now at result }
{
    let Ok(e) = reading::due(saved, at, items::ENTRY) else {
        return Err(BadField { place: at });
    };
    if e - at != limits::ENTRY || !is_origin(saved, at + FIELD_HEAD) {
        return Err(BadField { place: at });
    }
    Ok(e)
}

// The n-th entry of the log, from the eight bytes at a place.
fn put_entry(saved: &[u8], at: usize, log: &mut [u8], n: usize)
    requires { (at + logged_width ≤ length saved.now) × (logged_width * (n + 1) ≤ length log.old) × (n ≤ most_entries) }
    ensures { log.new ≡ patched (logged_width * n) (entry_copy (drop at saved.now)) log.old }
{
    let origin = origin_at(saved, at);
    let made = reading::number(saved, at + ORIGIN, 2);
    let a = items::LOGGED * n;
    fields::paste(log, a, &origin);
    fields::put_number(log, a + ORIGIN, 2, made as u32);
}

// The log's fields from a place on, at most 512: their contents, one behind the other.
pub fn read_log(saved: &[u8], at: usize, log: &mut [u8]) -> Result<Group, BadField>
    requires at_in_bounds { at ≤ length saved.now }
    requires most_entries_in_bounds { logged_width * most_entries ≤ length log.old }
    ensures { IsLog saved.now at log.new result }
{
    let mut count: usize = 0;
    let mut i = at;
    // Kept: a step of this loop is as long as a field, so no iterator of the library is plainer.
    while i < saved.len() && saved[i] == items::ENTRY && count < limits::ENTRIES {
        let end = entry_field(saved, i)?;
        put_entry(saved, i + FIELD_HEAD, log, count);
        count += 1;
        i = end;
    }
    Ok(Group { count, end: i })
}
