// A result record's bytes, read front to back over a problem's symbols: its end, its units, and behind them its items. A field that is bad has its
// first byte for a place; the refusal's number is the caller's.
#![tactic(auto)]

ghost use Rattle.std.specs.Prelude.{◌≡◌, ◌+◌, ◌*◌, ◌≤◌, length};
ghost use Rattle.limits.specs.Limits.{most_rules, two_byte_values};
ghost use Rattle.reading.specs.Answers.{Table};
ghost use Rattle.slots.specs.Slots.{slot_width};
ghost use Rattle.record.specs.Record.{listed_end};
ghost use Rattle.record.specs.Reader.{IsEnd, IsUnits, IsNothing, IsLast, IsBehind, IsRecord};

use items::BadField;
use limits::FIELD_HEAD;

// The end with which alone field 14 is due: neither side above.
const NEITHER: usize = 20;

// The ends of a run that is not complete: from neither side above to a full log.
const FIRST_STOP: usize = 20;

const LAST_STOP: usize = 24;

// Where the units' field and the first rule's begin: the fields before them have one length only.
const UNITS_AT: usize = FIELD_HEAD + 1;

pub const RULES_AT: usize = UNITS_AT + FIELD_HEAD + 4;

// Whether a run ends so.
fn listed(end: usize) -> bool
    ensures { result ≡ listed_end end }
{
    end == 0 || (FIRST_STOP <= end && end <= LAST_STOP)
}

// Field 10, which stands first: the end.
fn end_field(kept: &[u8]) -> Result<usize, BadField>
    ensures { IsEnd kept.now result }
{
    let end = items::number_field(kept, 0, items::END, 1)?;
    if !listed(end) {
        return Err(BadField { place: 0 });
    }
    Ok(end)
}

// Field 11: the units.
fn units_field(kept: &[u8], at: usize) -> Result<usize, BadField>
    ensures { IsUnits kept.now at result }
{
    let units = items::number_field(kept, at, items::UNITS, 4)?;
    if units > limits::BUDGET {
        return Err(BadField { place: at });
    }
    Ok(units)
}

// The place is the last: no byte stands there.
fn nothing_behind(kept: &[u8], at: usize) -> Result<(), BadField>
    ensures { IsNothing kept.now at result }
{
    if at < kept.len() {
        return Err(BadField { place: at });
    }
    Ok(())
}

// What is due behind the log: with end 20 the forms, and nothing else.
fn last_field(kept: &[u8], table: &[u8], end: usize, at: usize) -> Result<(), BadField>
    requires table { Table table.now }
    requires kept_len_bound { length kept.now ≤ two_byte_values }
    ensures { IsLast table.now kept.now end at result }
{
    if end != NEITHER {
        return nothing_behind(kept, at);
    }
    let behind = items::forms_field(kept, table, at)?;
    nothing_behind(kept, behind)
}

// A record's end, and how many rules it has.
#[derive(Clone, Copy, Debug, PartialEq, Eq)]
pub struct Record {
    pub end: usize,
    pub count: usize,
}

// The record behind its first two fields.
fn read_behind(kept: &[u8], table: &[u8], end: usize, slots: &mut [u8]) -> Result<Record, BadField>
    requires table { Table table.now }
    requires in_bounds { (11 ≤ length kept.now) × (length kept.now ≤ two_byte_values) }
    requires most_rules_in_bounds { slot_width * most_rules ≤ length slots.old }
    ensures { IsBehind table.now kept.now end slots.new result }
{
    let rules = items::read_rules(kept, table, RULES_AT, limits::NUMBERS, false, slots)?;
    let behind = items::read_entries(kept, rules.end)?;
    last_field(kept, table, end, behind)?;
    Ok(Record {
        end,
        count: rules.count,
    })
}

// The record, whose rules' sides go into slots. The place of a refusal is the first bad field's first byte, or the end where a field is due.
pub fn read(kept: &[u8], table: &[u8], slots: &mut [u8]) -> Result<Record, BadField>
    requires table { Table table.now }
    requires most_rules_in_bounds { slot_width * most_rules ≤ length slots.old }
    ensures { IsRecord table.now kept.now slots.new result }
{
    if kept.len() > limits::RECORD {
        return Err(BadField {
            place: limits::RECORD,
        });
    }
    let end = end_field(kept)?;
    units_field(kept, UNITS_AT)?;
    read_behind(kept, table, end, slots)
}
