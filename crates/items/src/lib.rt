// The fields of rules, log entries and pairs of forms: of each its tag, its reader over a problem's symbols, and its writer; and numbers in fields of
// their own, which `fields::Writer` writes. A field that is bad has its first byte for a place; the refusal's number is the caller's.
#![tactic(auto)]

ghost use Rattle.std.specs.Prelude.{◌≡◌, ◌+◌, ◌*◌, ◌≤◌, length};
ghost use mathlib.Core.List.{flat_map};
ghost use Rattle.limits.specs.Limits.{most_nodes, most_pair, most_rules, two_byte_values};
ghost use Rattle.limits.specs.Limits.{field_head, origin_width, rule_width, entry_width};
ghost use Rattle.terms.specs.Base.{field_bytes};
ghost use Rattle.fields.specs.Adds.{AddsSome};
ghost use Rattle.reading.specs.Answers.{Table};
ghost use Rattle.slots.specs.Slots.{slot_width, Layout};
ghost use Rattle.items.specs.Written.{logged_width, each, pair_field, slot_field, logged_field};
ghost use Rattle.items.specs.Readers.{part, IsNumber, IsPairFound, AreRuleSides, IsRule, HoldsPair, IsRules, IsEntry, IsEntries, IsForms};

use fields::Writer;
use limits::FIELD_HEAD;
use slots::origins;

// The tags of a result's fields: the end, the units, and the items.
pub const END: u8 = 0x10;

pub const UNITS: u8 = 0x11;

pub const RULE: u8 = 0x12;

pub const ENTRY: u8 = 0x13;

pub const FORMS: u8 = 0x14;

// A rule's field before its left side: the field's head, and the rule's number.
pub const RULE_HEAD: usize = FIELD_HEAD + 2;

// An entry in the log, the contents of its field 13: an origin, and the number of the rule made. 8
pub const LOGGED: usize = limits::ORIGIN + 2;

// A bad field, by its first byte, or the end where one is due.
#[derive(Clone, Copy, Debug, PartialEq, Eq)]
pub struct BadField {
    pub place: usize,
}

// A number that fills its field, in so many bytes.
pub fn number_field(kept: &[u8], at: usize, tag: u8, width: usize) -> Result<usize, BadField>
    requires { width ≤ 4 }
    ensures { IsNumber tag width kept.now at result }
{
    let Ok(e) = reading::due(kept, at, tag) else {
        return Err(BadField { place: at });
    };
    let start = at + FIELD_HEAD;
    if e - start != width {
        return Err(BadField { place: at });
    }
    Ok(reading::number(kept, start, width))
}

// Two sides, renamed as a pair, which fill the bytes from a place to an end: where the right one begins, if they are so.
pub fn renamed_pair(kept: &[u8], table: &[u8], at: usize, end: usize) -> Option<usize>
    requires table { Table table.now }
    requires at_le_end { (at ≤ end) × (end ≤ length kept.now) × (length kept.now ≤ two_byte_values) }
    ensures { IsPairFound table.now kept.now at end result }
{
    let Ok(middle) = reading::pair_at(kept, table, at, end) else {
        return None;
    };
    if !reading::is_renamed(kept, at, end) {
        return None;
    }
    Some(middle)
}

// A field of the pair in slot k: some bytes, at most an origin, and the two sides behind them.
pub fn put_pair(w: &mut Writer, tag: u8, head: &[u8], pairs: &[u8], k: usize)
    requires { (w.old.at + (field_head + length head.now + most_pair) ≤ length w.old.out.now) × (length head.now ≤ origin_width) × Layout pairs.now (k + 1) }
    ensures { AddsSome (field_head + length head.now + most_pair) w.old w.new 1
        (field_bytes (pair_field tag head.now pairs.now k)) }
{
    let left = slots::left(pairs, k);
    let right = slots::right(pairs, k);
    w.head(tag, head.len() + left.len() + right.len());
    w.bytes(head);
    w.bytes(left);
    w.bytes(right);
}

// The pair that fills the bytes from a place to an end into slot k, with a mark.
pub fn hold_pair(
    kept: &[u8],
    at: usize,
    middle: usize,
    end: usize,
    mark: &[u8],
    slots: &mut [u8],
    k: usize,
)
    requires at_le_middle { (at ≤ middle) × (middle ≤ at + most_nodes) × (middle ≤ end) × (end ≤ middle + most_nodes) × (end ≤ length kept.now) }
    requires mark_len { (length mark.now ≡ origin_width) × (slot_width * (k + 1) ≤ length slots.old) }
    ensures { HoldsPair slots.old k mark.now (part kept.now at middle) (part kept.now middle end)
        slots.new }
{
    slots::put_mark(slots, k, mark);
    slots::put_sides(slots, k, &kept[at..middle], &kept[middle..end]);
}

// The same of a rule's sides: where rules are to be ordered, the left side is above the right side.
fn rule_sides(kept: &[u8], table: &[u8], at: usize, end: usize, ordered: bool) -> Option<usize>
    requires table { Table table.now }
    requires at_le_end { (at ≤ end) × (end ≤ length kept.now) × (length kept.now ≤ two_byte_values) }
    ensures { AreRuleSides table.now ordered kept.now at end result }
{
    let middle = renamed_pair(kept, table, at, end)?;
    if ordered && !order::above(&kept[at..middle], &kept[middle..end], table) {
        return None;
    }
    Some(middle)
}

// A rule's number, where its right side begins, and where its field ends.
#[derive(Clone, Copy, Debug, PartialEq, Eq)]
pub struct RuleField {
    pub number: usize,
    pub middle: usize,
    pub end: usize,
}

// Field 12: a rule whose number is above that of the rule before, and at most so much; none if it is bad.
pub fn rule_field(
    kept: &[u8],
    table: &[u8],
    at: usize,
    before: usize,
    most: usize,
    ordered: bool,
) -> Option<RuleField>
    requires table { Table table.now }
    requires kept_len_bound { length kept.now ≤ two_byte_values }
    ensures { IsRule table.now ordered most kept.now at before result }
{
    let Ok(end) = reading::due(kept, at, RULE) else {
        return None;
    };
    let start = at + RULE_HEAD;
    if end < start {
        return None;
    }
    let number = reading::number(kept, at + FIELD_HEAD, 2);
    if number <= before || number > most {
        return None;
    }
    let middle = rule_sides(kept, table, start, end, ordered)?;
    Some(RuleField {
        number,
        middle,
        end,
    })
}

// Fields of one tag, one behind the other: so many, and the place behind them.
#[derive(Clone, Copy, Debug, PartialEq, Eq)]
pub struct Group {
    pub count: usize,
    pub end: usize,
}

// The rules' fields from a place on, at most 32, with numbers of at most so much: into slots, each marked as it will be once it is removed.
pub fn read_rules(
    kept: &[u8],
    table: &[u8],
    at: usize,
    most: usize,
    ordered: bool,
    slots: &mut [u8],
) -> Result<Group, BadField>
    requires table { Table table.now }
    requires at_in_bounds { (at ≤ length kept.now) × (length kept.now ≤ two_byte_values) }
    requires most_rules_in_bounds { slot_width * most_rules ≤ length slots.old }
    ensures { IsRules table.now ordered most kept.now at slots.new result }
{
    let mut count: usize = 0;
    let mut before: usize = 0;
    let mut i = at;
    // Kept: a step of this loop is as long as a field, so no iterator of the library is plainer.
    while i < kept.len() && kept[i] == RULE && count < limits::RULES {
        let Some(rule) = rule_field(kept, table, i, before, most, ordered) else {
            return Err(BadField { place: i });
        };
        let mark = origins::numbered(origins::REMOVED_RULE, rule.number as u16);
        hold_pair(
            kept,
            i + RULE_HEAD,
            rule.middle,
            rule.end,
            &mark,
            slots,
            count,
        );
        count += 1;
        before = rule.number;
        i = rule.end;
    }
    Ok(Group { count, end: i })
}

// Field 12 of the rule in slot k.
fn put_rule(w: &mut Writer, rules: &[u8], k: usize)
    requires rule_width_in_bounds { w.old.at + rule_width ≤ length w.old.out.now }
    requires layout { Layout rules.now (k + 1) }
    ensures { AddsSome rule_width w.old w.new 1 (field_bytes (slot_field rules.now k)) }
{
    let number = slots::number(rules, k);
    put_pair(w, RULE, &number, rules, k);
}

// Field 12, once a rule.
pub fn put_rules(w: &mut Writer, rules: &[u8], count: usize)
    requires count_in_bounds { w.old.at + rule_width * count ≤ length w.old.out.now }
    requires layout { Layout rules.now count }
    ensures { AddsSome rule_width w.old w.new count (flat_map field_bytes (each (slot_field rules.now) 0 count)) }
{
    for i in 0..count {
        put_rule(w, rules, i);
    }
}

// Field 13: the place behind it. Only its length and its kind are read.
pub fn entry_field(kept: &[u8], at: usize) -> Result<usize, BadField>
    ensures { IsEntry kept.now at result }
{
    let Ok(e) = reading::due(kept, at, ENTRY) else {
        return Err(BadField { place: at });
    };
    if e - at != limits::ENTRY {
        return Err(BadField { place: at });
    }
    let kind = kept[at + FIELD_HEAD];
    if kind == 0 || kind > origins::OVERLAPPING {
        return Err(BadField { place: at });
    }
    Ok(e)
}

// The log's fields from a place on, at most 512: the place behind them.
pub fn read_entries(kept: &[u8], at: usize) -> Result<usize, BadField>
    requires { at ≤ length kept.now }
    ensures { IsEntries kept.now at result }
{
    let mut count: usize = 0;
    let mut i = at;
    // Kept: a step of this loop is as long as a field, so no iterator of the library is plainer.
    while i < kept.len() && kept[i] == ENTRY && count < limits::ENTRIES {
        i = entry_field(kept, i)?;
        count += 1;
    }
    Ok(i)
}

// Field 13, once an entry.
pub fn put_log(w: &mut Writer, log: &[u8], count: usize)
    requires count_in_bounds { w.old.at + entry_width * count ≤ length w.old.out.now }
    requires count_in_bounds_2 { logged_width * count ≤ length log.now }
    ensures { AddsSome entry_width w.old w.new count (flat_map field_bytes (each (logged_field log.now) 0 count)) }
{
    for i in 0..count {
        let e = LOGGED * i;
        w.field(ENTRY, &log[e..e + LOGGED]);
    }
}

// Field 14: the place behind it.
pub fn forms_field(kept: &[u8], table: &[u8], at: usize) -> Result<usize, BadField>
    requires table { Table table.now }
    requires kept_len_bound { length kept.now ≤ two_byte_values }
    ensures { IsForms table.now kept.now at result }
{
    let Ok(e) = reading::due(kept, at, FORMS) else {
        return Err(BadField { place: at });
    };
    let Some(_) = renamed_pair(kept, table, at + FIELD_HEAD, e) else {
        return Err(BadField { place: at });
    };
    Ok(e)
}
