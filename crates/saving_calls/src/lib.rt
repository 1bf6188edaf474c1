// The calls that save a run that was stopped: completion, and a saved run taken up again.
#![tactic(auto)]

ghost use Rattle.std.specs.Prelude.{◌≡◌, ◌*◌, ◌≤◌, length};
ghost use Rattle.limits.specs.Limits.{most_equations, most_symbols, most_budget, most_result, longest_saved, field_head, symbols_width};
ghost use Rattle.limits.specs.Limits.{two_byte_values};
ghost use Rattle.state.specs.Run.{Fine};
ghost use Rattle.checkpoint.specs.Resume.{complete_saving_call, resume_saving_call, after_result, after_saved};
ghost use Rattle.saving_calls.specs.Leaving.{one_short, left_told, lengths, SavesIf, LeavesBoth, RunsProblem, SavingDelivers, SavingRedelivers, LeftFew};

use limits::FIELD_HEAD;
use problem::{Input, Reason, Refusal};
use rewriting::End;
use run::Ran;
use state::State;

// The counts of result bytes and of bytes of the saved record, 0 where there is none.
// Kept: 0 and no `Option`, since the promise `lengths` and C's answer give the length of no bytes.
#[derive(Clone, Copy, Debug, PartialEq, Eq)]
pub struct Left {
    pub result: usize,
    pub saved: usize,
}

// Whether one of two lent buffers of these lengths is too short.
fn short(res: usize, saved: usize) -> bool
    ensures { result ≡ one_short res saved }
{
    res < limits::BUFFER || saved < limits::SAVED
}

// The saved record of a state in which a run ended, only with end 21; its theory stands in lent bytes.
fn save_if(
    state: State,
    end: End,
    table: &[u8],
    source: &[u8],
    from: usize,
    count: usize,
    saved: &mut [u8],
) -> usize
    requires longest_saved_in_bounds { longest_saved ≤ length saved.old }
    requires table_len_bound { (length table.now ≤ 2 * most_symbols) × (count ≤ most_equations) × Fine state }
    ensures { SavesIf state end table.now source.now from count saved.old saved.new result }
{
    let End::Spent = end else {
        return 0;
    };
    saving::save(state, table, source, from, count, saved)
}

// What a run leaves: its result, and its saved record. Its theory stands in lent bytes, the symbols before `table_end`.
fn leave(
    ran: Ran,
    source: &[u8],
    table_end: usize,
    from: usize,
    count: usize,
    res: &mut [u8],
    saved: &mut [u8],
) -> Left
    requires most_result_in_bounds { (most_result ≤ length res.old) × (longest_saved ≤ length saved.old) × Fine ran.state }
    requires field_head_le_table_end { (field_head ≤ table_end) × (table_end ≤ length source.now) × (table_end ≤ symbols_width) × (count ≤ most_equations) }
    ensures { LeavesBoth ran source.now table_end from count res.old res.new
        saved.old saved.new result }
{
    let end = ran.end;
    let n = report::report(ran.state, end, ran.paid, res);
    let m = save_if(
        ran.state,
        end,
        &source[FIELD_HEAD..table_end],
        source,
        from,
        count,
        saved,
    );
    Left {
        result: n,
        saved: m,
    }
}

// The turns of an accepted problem.
fn begin(problem: &[u8], input: Input) -> Ran
    requires field_head_le_table_end { (field_head ≤ input.table_end) × (input.table_end ≤ length problem.now) × (length problem.now ≤ two_byte_values) }
    requires count_le_most_equations { (input.count ≤ most_equations) × (input.budget ≤ most_budget) }
    ensures { RunsProblem problem.now input.table_end input.budget input.equations input.count result }
{
    let end = input.table_end;
    let table = &problem[FIELD_HEAD..end];
    let inputs = inputs::read(problem, table, input.equations, input.count);
    run::run(inputs, table, input.budget as u32)
}

// Completion, as `complete` does it, and on end 21 a saved record of the run. For every input the answer and both lent buffers are the definition's.
// What is written delivers as complete's result does, and counts as written by the engine.
pub fn complete_saving(problem: &[u8], res: &mut [u8], saved: &mut [u8]) -> Result<Left, Refusal>
    ensures answer { left_told result ≡ lengths
        (complete_saving_call problem.now (length res.old) (length saved.old)) }
    ensures res { res.new ≡ after_result
        (complete_saving_call problem.now (length res.old) (length saved.old)) res.old }
    ensures saved { saved.new ≡ after_saved
        (complete_saving_call problem.now (length res.old) (length saved.old)) saved.old }
    ensures delivery { SavingDelivers problem.now res.new saved.new result }
    ensures few { LeftFew result }
{
    if short(res.len(), saved.len()) {
        return Err(Refusal {
            reason: Reason::ShortBuffer,
            place: 0,
        });
    }
    let input = problem::parse(problem)?;
    let ran = begin(problem, input);
    Ok(leave(
        ran,
        problem,
        input.table_end,
        input.equations,
        input.count,
        res,
        saved,
    ))
}

// A saved record taken up again, as `resume` does it, and on end 21 again a saved record of the run. For every input the answer and both lent buffers
// are the definition's. Of a record that the engine wrote: it is not refused with 16, and what is written delivers and counts as written by the engine.
pub fn resume_saving(
    kept: &[u8],
    budget: u64,
    res: &mut [u8],
    saved: &mut [u8],
) -> Result<Left, Refusal>
    ensures answer { left_told result ≡ lengths
        (resume_saving_call kept.now budget (length res.old) (length saved.old)) }
    ensures res { res.new ≡ after_result
        (resume_saving_call kept.now budget (length res.old) (length saved.old)) res.old }
    ensures saved { saved.new ≡ after_saved
        (resume_saving_call kept.now budget (length res.old) (length saved.old)) saved.old }
    ensures delivery { SavingRedelivers kept.now budget res.new saved.new result }
    ensures few { LeftFew result }
{
    if short(res.len(), saved.len()) {
        return Err(Refusal {
            reason: Reason::ShortBuffer,
            place: 0,
        });
    }
    let mut pairs = [0u8; slots::ROOM];
    let mut log = [0u8; state::LOG];
    let loaded = resume::read_resumption(kept, budget, &mut pairs, &mut log)?;
    let ran = resume::go_on_saved(kept, loaded, pairs, log, budget as u32);
    let table_end = loaded.front.table;
    Ok(leave(
        ran,
        kept,
        table_end,
        table_end,
        loaded.front.equations,
        res,
        saved,
    ))
}
