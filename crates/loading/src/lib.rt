// A saved record's bytes, read front to back: its rules and waiting equations into slots, its log into bytes. A field that is bad has its first byte for
// a place.
#![tactic(auto)]

ghost use Rattle.std.specs.Prelude.{◌≡◌, ◌+◌, ◌*◌, ◌≤◌, length};
ghost use Rattle.limits.specs.Limits.{most_pairs, most_entries, most_next, most_saved};
ghost use Rattle.reading.specs.Answers.{Table};
ghost use Rattle.slots.specs.Slots.{slot_width};
ghost use Rattle.items.specs.Written.{logged_width};
ghost use Rattle.loading.specs.declared.LoadError.TheVariants.{Bad};
ghost use Rattle.loading.specs.Loads.{IsFirst, IsEquation, IsEquations, IsNext, IsBack, IsEnd, IsPairs, IsLoaded};

use items::{BadField, Group};
use limits::FIELD_HEAD;

// Fields 20 and 22, each of one length only.
const NEXT_WIDTH: usize = FIELD_HEAD + 2;

const BACK_WIDTH: usize = FIELD_HEAD + 1;

// Field 01, which stands first: the place behind it.
fn symbols_field(saved: &[u8]) -> Result<usize, BadField>
    ensures { IsFirst saved.now result }
{
    let Ok(e) = problem::symbols(saved) else {
        return Err(BadField { place: 0 });
    };
    Ok(e)
}

// Field 03, an equation as in a problem: the place behind it.
fn equation_field(saved: &[u8], table: &[u8], at: usize) -> Result<usize, BadField>
    requires table { Table table.now }
    requires saved_len_bound { length saved.now ≤ most_saved }
    ensures { IsEquation table.now saved.now at result }
{
    let Ok(e) = reading::due(saved, at, problem::EQUATION_TAG) else {
        return Err(BadField { place: at });
    };
    let Ok(_) = reading::pair_at(saved, table, at + FIELD_HEAD, e) else {
        return Err(BadField { place: at });
    };
    Ok(e)
}

// The equations' fields from a place on, at most 16.
fn read_equations(saved: &[u8], table: &[u8], at: usize) -> Result<Group, BadField>
    requires table { Table table.now }
    requires at_in_bounds { (at ≤ length saved.now) × (length saved.now ≤ most_saved) }
    ensures { IsEquations table.now saved.now at result }
{
    let mut count: usize = 0;
    let mut i = at;
    // Kept: a step of this loop is as long as a field, so no iterator of the library is plainer.
    while i < saved.len() && saved[i] == problem::EQUATION_TAG && count < limits::EQUATIONS {
        i = equation_field(saved, table, i)?;
        count += 1;
    }
    Ok(Group { count, end: i })
}

// Field 20: the next rule number, 1 to 513.
fn next_field(saved: &[u8], at: usize) -> Result<usize, BadField>
    ensures { IsNext saved.now at result }
{
    let next = items::number_field(saved, at, checkpoint::NEXT, 2)?;
    if next == 0 || next > limits::NEXT {
        return Err(BadField { place: at });
    }
    Ok(next)
}

// Field 22: how many were put back, at most as many as wait.
fn back_field(saved: &[u8], at: usize, waiting: usize) -> Result<usize, BadField>
    ensures { IsBack saved.now at waiting result }
{
    let back = items::number_field(saved, at, checkpoint::BACK, 1)?;
    if back > waiting {
        return Err(BadField { place: at });
    }
    Ok(back)
}

// What a record holds before its rules: where its symbols end, how many equations it has and where these end, and the next rule number.
#[derive(Clone, Copy)]
pub struct Front {
    pub table: usize,
    pub equations: usize,
    pub end: usize,
    pub next: usize,
}

// So many live rules and pairs, entries, and equations that were put back.
#[derive(Clone, Copy)]
pub struct Counts {
    pub live: usize,
    pub pairs: usize,
    pub entries: usize,
    pub back: usize,
}

// A record that was read, beside the lent slots and the log.
#[derive(Clone, Copy)]
pub struct Loaded {
    pub front: Front,
    pub counts: Counts,
}

#[derive(Clone, Copy, Debug, PartialEq, Eq)]
pub enum LoadError {
    // The first byte of the first bad field, or the end where a field is due.
    Bad(usize),
    // Over 49,152 bytes.
    Long,
}

impl From<BadField> for LoadError {
    ghost from_gives = { λ bad e. e ≡ Bad bad.place };

    fn from(bad: BadField) -> LoadError {
        LoadError::Bad(bad.place)
    }
}

// So many entries, and equations that were put back.
#[derive(Clone, Copy)]
pub struct Ended {
    pub entries: usize,
    pub back: usize,
}

// The record behind its waiting equations: the log, with an entry for each rule made, and the count, with nothing behind it.
fn read_end(
    saved: &[u8],
    at: usize,
    next: usize,
    waiting: usize,
    log: &mut [u8],
) -> Result<Ended, BadField>
    requires at_in_bounds { (at ≤ length saved.now) × (length saved.now ≤ most_saved) }
    requires most_entries_in_bounds { logged_width * most_entries ≤ length log.old }
    ensures { IsEnd saved.now at next waiting log.new result }
{
    let entries = candidates::read_log(saved, at, log)?;
    if entries.count + 1 < next {
        return Err(BadField { place: entries.end });
    }
    let back = back_field(saved, entries.end, waiting)?;
    let behind = entries.end + BACK_WIDTH;
    if behind < saved.len() {
        return Err(BadField { place: behind });
    }
    Ok(Ended {
        entries: entries.count,
        back,
    })
}

// So many live rules and pairs, and the place behind them.
#[derive(Clone, Copy)]
pub struct PairsFound {
    pub live: usize,
    pub count: usize,
    pub end: usize,
}

// The rules and the waiting equations from a place on; the rules' numbers are below the next one, and their left sides above their right sides.
fn read_pairs(
    saved: &[u8],
    table: &[u8],
    at: usize,
    next: usize,
    slots: &mut [u8],
) -> Result<PairsFound, BadField>
    requires table { Table table.now }
    requires at_in_bounds { (at ≤ length saved.now) × (length saved.now ≤ most_saved) × (1 ≤ next) × (next ≤ most_next) }
    requires most_pairs_in_bounds { slot_width * most_pairs ≤ length slots.old }
    ensures { IsPairs table.now saved.now at next slots.new result }
{
    let rules = items::read_rules(saved, table, at, next - 1, true, slots)?;
    let pairs = candidates::read_waiting(saved, table, rules.end, rules.count, slots)?;
    Ok(PairsFound {
        live: rules.count,
        count: pairs.count,
        end: pairs.end,
    })
}

// The saved record: what it holds, its rules and waiting equations into slots and its log into bytes.
pub fn load(saved: &[u8], slots: &mut [u8], log: &mut [u8]) -> Result<Loaded, LoadError>
    requires { (slot_width * most_pairs ≤ length slots.old) × (logged_width * most_entries ≤ length log.old) }
    ensures { IsLoaded saved.now slots.new log.new result }
{
    if saved.len() > limits::SAVED {
        return Err(LoadError::Long);
    }
    let table = symbols_field(saved)?;
    let symbols = &saved[FIELD_HEAD..table];
    let equations = read_equations(saved, symbols, table)?;
    let next = next_field(saved, equations.end)?;
    let front = Front {
        table,
        equations: equations.count,
        end: equations.end,
        next,
    };
    let pairs = read_pairs(saved, symbols, equations.end + NEXT_WIDTH, next, slots)?;
    let ended = read_end(saved, pairs.end, next, pairs.count - pairs.live, log)?;
    let counts = Counts {
        live: pairs.live,
        pairs: pairs.count,
        entries: ended.entries,
        back: ended.back,
    };
    Ok(Loaded { front, counts })
}
