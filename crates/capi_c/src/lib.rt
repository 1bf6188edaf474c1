// The public calls for C, as a static library. A slice is a pointer and a length, an answer is one number. Each calls the function of `capi` of its
// name, a library for Rattle, where its promises are explained, and states them again.
#![tactic(auto)]

ghost use Rattle.std.specs.Prelude.{◌≡◌, eqb, length};
ghost use Rattle.completion.specs.Calls.{complete_call, compare_call, unify_call, subterm_part, after_complete, after_unify};
ghost use Rattle.completion.specs.Calls.{counted};
ghost use Rattle.calls.specs.Answers.{unify_returns, subterm_refused};
ghost use Rattle.checkpoint.specs.Resume.{resume_call, complete_saving_call, resume_saving_call, after_result, after_saved};
ghost use Rattle.saving_calls.specs.Leaving.{lengths};
ghost use Rattle.decide.specs.Decide.{decide_call, outermost_call};
ghost use Rattle.decide.specs.Answers.{without_units};
ghost use Rattle.lower.specs.Lower.{which, lower_refused};
ghost use Rattle.capi.specs.Codes.{value_in, number_in, answer_code, unify_code, decide_code, outermost_code, left_code, lower_code, part_code};
ghost use Rattle.capi.specs.Codes.{CodeDelivers, CodeDecides, CodesAgree, CodeSaves, CodeResumes, CodeResumesSaving};

#[unsafe(no_mangle)]
pub extern "C" fn vb_compare(problem: &[u8]) -> u64
    ensures { result ≡ answer_code (compare_call problem.now) }
{
    capi::vb_compare(problem)
}

#[unsafe(no_mangle)]
pub extern "C" fn vb_unify(problem: &[u8], res: &mut [u8]) -> u64
    ensures value { result ≡ unify_code (unify_returns (unify_call problem.now (length res.old))) }
    ensures res_after { res.new ≡ after_unify (unify_call problem.now (length res.old)) res.old }
{
    capi::vb_unify(problem, res)
}

#[unsafe(no_mangle)]
pub extern "C" fn vb_subterm(problem: &[u8], position: usize) -> u64
    ensures value { result ≡ part_code (subterm_part problem.now position) }
    ensures refused { eqb result 0 ≡ subterm_refused problem.now position }
{
    capi::vb_subterm(problem, position)
}

#[unsafe(no_mangle)]
pub extern "C" fn vb_decide(problem: &[u8], kept: &[u8]) -> u64
    ensures value { result ≡ decide_code (without_units (decide_call problem.now kept.now)) }
    ensures equations { CodeDecides value_in problem.now kept.now result }
    ensures agrees { CodesAgree problem.now kept.now result
        (outermost_code (outermost_call problem.now kept.now)) }
{
    capi::vb_decide(problem, kept)
}

#[unsafe(no_mangle)]
pub extern "C" fn vb_outermost(problem: &[u8], kept: &[u8]) -> u64
    ensures value { result ≡ outermost_code (outermost_call problem.now kept.now) }
    ensures equations { CodeDecides number_in problem.now kept.now result }
    ensures agrees { CodesAgree problem.now kept.now
        (decide_code (without_units (decide_call problem.now kept.now))) result }
{
    capi::vb_outermost(problem, kept)
}

#[unsafe(no_mangle)]
pub extern "C" fn vb_lower(symbols: &[u8], first: &[u8], second: &[u8]) -> u64
    ensures value { result ≡ lower_code (which symbols.now first.now second.now) }
    ensures refused { eqb result 0 ≡ lower_refused symbols.now first.now second.now }
{
    capi::vb_lower(symbols, first, second)
}

#[unsafe(no_mangle)]
pub extern "C" fn vb_complete(problem: &[u8], res: &mut [u8]) -> u64
    ensures value { result ≡ answer_code (counted (complete_call problem.now (length res.old))) }
    ensures res_after { res.new ≡ after_complete (complete_call problem.now (length res.old)) res.old }
    ensures delivery { CodeDelivers problem.now res.new result }
{
    capi::vb_complete(problem, res)
}

#[unsafe(no_mangle)]
pub extern "C" fn vb_complete_saving(problem: &[u8], res: &mut [u8], saved: &mut [u8]) -> u64
    ensures value { result ≡ left_code (lengths
        (complete_saving_call problem.now (length res.old) (length saved.old))) }
    ensures res_after { res.new ≡ after_result
        (complete_saving_call problem.now (length res.old) (length saved.old)) res.old }
    ensures saved_after { saved.new ≡ after_saved
        (complete_saving_call problem.now (length res.old) (length saved.old)) saved.old }
    ensures delivery { CodeSaves problem.now res.new saved.new result }
{
    capi::vb_complete_saving(problem, res, saved)
}

#[unsafe(no_mangle)]
pub extern "C" fn vb_resume(kept: &[u8], budget: u64, res: &mut [u8]) -> u64
    ensures value { result ≡ answer_code (counted (resume_call kept.now budget (length res.old))) }
    ensures res_after { res.new ≡ after_complete (resume_call kept.now budget (length res.old)) res.old }
    ensures delivery { CodeResumes kept.now budget res.new result }
{
    capi::vb_resume(kept, budget, res)
}

#[unsafe(no_mangle)]
pub extern "C" fn vb_resume_saving(
    kept: &[u8],
    budget: u64,
    res: &mut [u8],
    saved: &mut [u8],
) -> u64
    ensures value { result ≡ left_code (lengths
        (resume_saving_call kept.now budget (length res.old) (length saved.old))) }
    ensures res_after { res.new ≡ after_result
        (resume_saving_call kept.now budget (length res.old) (length saved.old)) res.old }
    ensures saved_after { saved.new ≡ after_saved
        (resume_saving_call kept.now budget (length res.old) (length saved.old)) saved.old }
    ensures delivery { CodeResumesSaving kept.now budget res.new saved.new result }
{
    capi::vb_resume_saving(kept, budget, res, saved)
}
