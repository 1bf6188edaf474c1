// The public calls for C: a slice is a pointer and a length, an answer is one number.
#![tactic(auto)]

ghost use Rattle.std.specs.Prelude.{◌≡◌, ◌≤◌, eqb, length};
ghost use Rattle.completion.specs.Calls.{complete_call, compare_call, unify_call, subterm_part, after_complete, after_unify};
ghost use Rattle.completion.specs.Calls.{counted};
ghost use Rattle.problem.specs.Reasons.{number_of_reason};
ghost use Rattle.calls.specs.Answers.{unify_returns, subterm_refused};
ghost use Rattle.checkpoint.specs.Resume.{resume_call, complete_saving_call, resume_saving_call, after_result, after_saved};
ghost use Rattle.saving_calls.specs.Leaving.{left_told, lengths};
ghost use Rattle.decide.specs.Decide.{decide_call, outermost_call};
ghost use Rattle.decide.specs.Answers.{without_units};
ghost use Rattle.lower.specs.Lower.{which, lower_refused};
ghost use Rattle.capi.specs.Codes.{code, value_in, number_in, answer_code, unify_code, decide_code, outermost_code, left_code, lower_code, part_code};
ghost use Rattle.capi.specs.Codes.{CodeDelivers, CodeDecides, CodesAgree, CodeSaves, CodeResumes, CodeResumesSaving};

use decide::Decided;
use instances::Found;
use lower::Which;
use order::Compared;
use problem::Refusal;
use rewriting::End;
use saving_calls::Left;

// The values of 32 bits, 2^32, which is what a number counts; and what a kind counts, 2^48.
const VALUES: u64 = 4294967296;

const KIND: u64 = 281474976710656;

// Kept: an answer as one number, its kind and the papers' numbers in it, since C calls these.
fn code(kind: u64, number: u8, value: usize) -> u64
    requires { kind ≤ 3 }
    ensures { result ≡ code kind number value }
{
    kind * KIND + u64::from(number) * VALUES + value as u64 % VALUES
}

// A refusal has kind 0.
fn refused(refusal: Refusal) -> u64
    ensures { result ≡ code 0 (number_of_reason refusal.reason) refusal.place }
{
    code(0, u8::from(refusal.reason), refusal.place)
}

#[unsafe(no_mangle)]
pub extern "C" fn vb_compare(problem: &[u8]) -> u64
    ensures { result ≡ answer_code (compare_call problem.now) }
{
    match calls::compare(problem) {
        Ok(Compared::LeftAbove) => code(1, 0, 1),
        Ok(Compared::RightAbove) => code(1, 0, 2),
        Ok(Compared::Identical) => code(1, 0, 3),
        Ok(Compared::Neither) => code(1, 0, 4),
        Err(refusal) => code(0, u8::from(refusal.reason), refusal.place),
    }
}

#[unsafe(no_mangle)]
pub extern "C" fn vb_unify(problem: &[u8], res: &mut [u8]) -> u64
    ensures value { result ≡ unify_code (unify_returns (unify_call problem.now (length res.old))) }
    ensures res_after { res.new ≡ after_unify (unify_call problem.now (length res.old)) res.old }
{
    match calls::unify(problem, res) {
        Ok(Found::Instance(n)) => code(1, 0, n),
        Ok(Found::Nothing) => code(2, 0, 0),
        Ok(Found::TooLarge) => code(3, u8::from(End::TooLarge), 0),
        Err(refusal) => refused(refusal),
    }
}

#[unsafe(no_mangle)]
pub extern "C" fn vb_subterm(problem: &[u8], position: usize) -> u64
    ensures value { result ≡ part_code (subterm_part problem.now position) }
    ensures refused { eqb result 0 ≡ subterm_refused problem.now position }
{
    match calls::subterm_bounds(problem, position) {
        Some(bounds) => {
            let start = bounds.start;
            let bytes = bounds.end - start;
            start as u64 % VALUES * VALUES + bytes as u64 % VALUES
        }
        None => 0,
    }
}

// The second promise says of what the answer is right: of a record that the engine wrote; the third, that outermost's answer does not contradict it.
#[unsafe(no_mangle)]
pub extern "C" fn vb_decide(problem: &[u8], kept: &[u8]) -> u64
    ensures value { result ≡ decide_code (without_units (decide_call problem.now kept.now)) }
    ensures equations { CodeDecides value_in problem.now kept.now result }
    ensures agrees { CodesAgree problem.now kept.now result
        (outermost_code (outermost_call problem.now kept.now)) }
{
    match decide::decide(problem, kept) {
        Ok(Decided::Same(_)) => code(1, 0, 1),
        Ok(Decided::Different(_)) => code(1, 0, 2),
        Ok(Decided::Spent(_)) => code(3, u8::from(End::Spent), 0),
        Ok(Decided::TooLarge(_)) => code(3, u8::from(End::TooLarge), 0),
        Err(refusal) => refused(refusal),
    }
}

// The same by the other strategy, with the units.
#[unsafe(no_mangle)]
pub extern "C" fn vb_outermost(problem: &[u8], kept: &[u8]) -> u64
    ensures value { result ≡ outermost_code (outermost_call problem.now kept.now) }
    ensures equations { CodeDecides number_in problem.now kept.now result }
    ensures agrees { CodesAgree problem.now kept.now
        (decide_code (without_units (decide_call problem.now kept.now))) result }
{
    match decide::outermost(problem, kept) {
        Ok(Decided::Same(units)) => code(1, 1, units as usize),
        Ok(Decided::Different(units)) => code(1, 2, units as usize),
        Ok(Decided::Spent(units)) => code(3, u8::from(End::Spent), units as usize),
        Ok(Decided::TooLarge(units)) => code(3, u8::from(End::TooLarge), units as usize),
        Err(refusal) => refused(refusal),
    }
}

// What `vb_lower` answers where the lent bytes are refused.
const NEITHER: u64 = 0;

// The caller has both terms: which one it is says what the part would.
#[unsafe(no_mangle)]
pub extern "C" fn vb_lower(symbols: &[u8], first: &[u8], second: &[u8]) -> u64
    ensures value { result ≡ lower_code (which symbols.now first.now second.now) }
    ensures refused { eqb result 0 ≡ lower_refused symbols.now first.now second.now }
{
    match lower::choose(symbols, first, second) {
        None => NEITHER,
        Some(Which::First) => 1,
        Some(Which::Second) => 2,
    }
}

// The third promise is demand 3, of the bytes that C is left: of as many as the answer's value says, where its kind is 1.
#[unsafe(no_mangle)]
pub extern "C" fn vb_complete(problem: &[u8], res: &mut [u8]) -> u64
    ensures value { result ≡ answer_code (counted (complete_call problem.now (length res.old))) }
    ensures res_after { res.new ≡ after_complete (complete_call problem.now (length res.old)) res.old }
    ensures delivery { CodeDelivers problem.now res.new result }
{
    match complete::complete(problem, res) {
        Ok(n) => code(1, 0, n),
        Err(refusal) => refused(refusal),
    }
}

// The saved record's length is the number.
fn left_code(left: Result<Left, Refusal>) -> u64
    ensures { result ≡ left_code (left_told left) }
{
    match left {
        Ok(Left { result, saved }) => {
            KIND + saved as u64 % limits::LENGTHS as u64 * VALUES + result as u64 % VALUES
        }
        Err(refusal) => refused(refusal),
    }
}

// The last promise says what the bytes that C is left are, as many of each buffer as the answer says.
#[unsafe(no_mangle)]
pub extern "C" fn vb_complete_saving(problem: &[u8], res: &mut [u8], saved: &mut [u8]) -> u64
    ensures value { result ≡ left_code (lengths
        (complete_saving_call problem.now (length res.old) (length saved.old))) }
    ensures res_after { res.new ≡ after_result
        (complete_saving_call problem.now (length res.old) (length saved.old)) res.old }
    ensures saved_after { saved.new ≡ after_saved
        (complete_saving_call problem.now (length res.old) (length saved.old)) saved.old }
    ensures delivery { CodeSaves problem.now res.new saved.new result }
{
    left_code(saving_calls::complete_saving(problem, res, saved))
}

#[unsafe(no_mangle)]
pub extern "C" fn vb_resume(kept: &[u8], budget: u64, res: &mut [u8]) -> u64
    ensures value { result ≡ answer_code (counted (resume_call kept.now budget (length res.old))) }
    ensures res_after { res.new ≡ after_complete (resume_call kept.now budget (length res.old)) res.old }
    ensures delivery { CodeResumes kept.now budget res.new result }
{
    match resume::resume(kept, budget, res) {
        Ok(count) => code(1, 0, count),
        Err(refusal) => refused(refusal),
    }
}

#[unsafe(no_mangle)]
pub extern "C" fn vb_resume_saving(
    kept: &[u8],
    budget: u64,
    res: &mut [u8],
    saved: &mut [u8],
) -> u64
    ensures value { result ≡ left_code (lengths
        (resume_saving_call kept.now budget (length res.old) (length saved.old))) }
    ensures res_after { res.new ≡ after_result
        (resume_saving_call kept.now budget (length res.old) (length saved.old)) res.old }
    ensures saved_after { saved.new ≡ after_saved
        (resume_saving_call kept.now budget (length res.old) (length saved.old)) saved.old }
    ensures delivery { CodeResumesSaving kept.now budget res.new saved.new result }
{
    left_code(saving_calls::resume_saving(kept, budget, res, saved))
}
