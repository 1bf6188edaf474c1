// The call that takes up a saved run again.
#![tactic(auto)]

ghost use Rattle.std.specs.Prelude.{◌≡◌, ◌*◌, ◌≤◌, length};
ghost use Rattle.limits.specs.Limits.{most_equations, most_saved, most_entries, most_pairs};
ghost use Rattle.problem.specs.Parser.{SymbolsAt};
ghost use Rattle.slots.specs.Slots.{slot_width};
ghost use Rattle.items.specs.Written.{logged_width};
ghost use Rattle.completion.specs.Calls.{counted, after_complete};
ghost use Rattle.checkpoint.specs.Resume.{resume_call};
ghost use Rattle.state.specs.Run.{Fine};
ghost use Rattle.resume.specs.Resumes.{state_of, RunsRecord, IsTaken, resumed_told, Redelivers, ResumedFew};

use limits::FIELD_HEAD;
use loading::{Counts, Front, LoadError, Loaded};
use problem::{Reason, Refusal};
use run::Ran;
use slots::Pairs;
use state::{Log, State};

// The state that was saved, with so many units.
pub fn state_of(
    next: usize,
    counts: Counts,
    bytes: [u8; slots::ROOM],
    log: [u8; state::LOG],
    units: u32,
) -> State
    requires { 1 ≤ next }
    ensures { result ≡ state_of next counts bytes log units }
{
    State {
        pairs: Pairs {
            bytes,
            count: counts.pairs,
        },
        live: counts.live,
        made: next - 1,
        log: Log {
            bytes: log,
            count: counts.entries,
        },
        back: counts.back,
        units,
    }
}

// Turns from a state, for the theory of a record whose front is this.
pub fn go_on(kept: &[u8], front: Front, first: State) -> Ran
    requires { (length kept.now ≤ most_saved) × SymbolsAt kept.now front.table × (front.equations ≤ most_equations) × Fine first }
    ensures { RunsRecord kept.now front first result }
{
    let end = front.table;
    let table = &kept[FIELD_HEAD..end];
    let inputs = inputs::read(kept, table, end, front.equations);
    run::run_from(first, inputs, table)
}

// Turns from the saved state for the theory of the record that was read, with so many units.
pub fn go_on_saved(
    kept: &[u8],
    loaded: Loaded,
    pairs: [u8; slots::ROOM],
    log: [u8; state::LOG],
    units: u32,
) -> Ran
    requires front { (length kept.now ≤ most_saved) × SymbolsAt kept.now loaded.front.table × (loaded.front.equations ≤ most_equations) }
    requires first { (1 ≤ loaded.front.next) × Fine (state_of loaded.front.next loaded.counts pairs log units) }
    ensures { RunsRecord kept.now loaded.front (state_of loaded.front.next loaded.counts pairs log units) result }
{
    let front = loaded.front;
    let first = state_of(front.next, loaded.counts, pairs, log, units);
    go_on(kept, front, first)
}

// A saved record, read for a new budget: 2, 16, then 17.
pub fn read_resumption(
    kept: &[u8],
    budget: u64,
    pairs: &mut [u8],
    log: &mut [u8],
) -> Result<Loaded, Refusal>
    requires { (slot_width * most_pairs ≤ length pairs.old) × (logged_width * most_entries ≤ length log.old) }
    ensures { IsTaken kept.now budget pairs.new log.new result }
{
    let loaded = match loading::load(kept, pairs, log) {
        Ok(loaded) => loaded,
        Err(LoadError::Long) => {
            return Err(Refusal {
                reason: Reason::LongProblem,
                place: limits::SAVED,
            });
        }
        Err(LoadError::Bad(place)) => {
            return Err(Refusal {
                reason: Reason::WrongSaved,
                place,
            });
        }
    };
    if budget > limits::BUDGET as u64 {
        return Err(Refusal {
            reason: Reason::LargeBudget,
            place: 0,
        });
    }
    Ok(loaded)
}

// A saved record taken up again with a new budget: the count of result bytes. For every record the answer and the lent result bytes are the
// definition's. Of a record that the engine wrote: it is not refused with 16, and what is written delivers for the problem that its run began with.
pub fn resume(kept: &[u8], budget: u64, res: &mut [u8]) -> Result<usize, Refusal>
    ensures answer { resumed_told result ≡ counted (resume_call kept.now budget (length res.old)) }
    ensures bytes { res.new ≡ after_complete (resume_call kept.now budget (length res.old)) res.old }
    ensures delivery { Redelivers kept.now budget res.new result }
    ensures few { ResumedFew result }
{
    if res.len() < limits::BUFFER {
        return Err(Refusal {
            reason: Reason::ShortBuffer,
            place: 0,
        });
    }
    let mut pairs = [0u8; slots::ROOM];
    let mut log = [0u8; state::LOG];
    let loaded = read_resumption(kept, budget, &mut pairs, &mut log)?;
    let ran = go_on_saved(kept, loaded, pairs, log, budget as u32);
    let end = ran.end;
    Ok(report::report(ran.state, end, ran.paid, res))
}
