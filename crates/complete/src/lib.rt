// The call complete: from a problem's bytes to a result's.
#![tactic(auto)]

ghost use Rattle.std.specs.Prelude.{◌≡◌, ◌≤◌, length};
ghost use Rattle.limits.specs.Limits.{most_equations, most_budget, most_result, field_head, two_byte_values};
ghost use Rattle.completion.specs.Calls.{complete_call, counted, after_complete};
ghost use Rattle.complete.specs.Answer.{completed_told, Delivery, WritesProblem};

use problem::{Input, Reason, Refusal};

// The result of an accepted problem at the front of the lent bytes: the count of its bytes.
fn accepted(problem: &[u8], input: Input, res: &mut [u8]) -> usize
    requires table_in_bounds { (field_head ≤ input.table_end) × (input.table_end ≤ length problem.now) × (length problem.now ≤ two_byte_values) }
    requires few { (input.count ≤ most_equations) × (input.budget ≤ most_budget) × (most_result ≤ length res.old) }
    ensures { WritesProblem problem.now input res.old res.new result }
{
    let table = &problem[limits::FIELD_HEAD..input.table_end];
    let inputs = inputs::read(problem, table, input.equations, input.count);
    let ran = run::run(inputs, table, input.budget as u32);
    report::report(ran.state, ran.end, ran.paid, res)
}

// Completion of the problem's equations. For every input the answer and the lent result bytes are the definition's (refused: every byte as it was;
// accepted: the result's fields, then what stood there). And demand 3: where field 10 of what is written holds 0, the rules that its fields 12 hold
// settle the problem's equations; whatever the end, these rules with what waits are derived from the equations by the transition rules. The count of
// the result's bytes.
pub fn complete(problem: &[u8], res: &mut [u8]) -> Result<usize, Refusal>
    ensures answer { completed_told result ≡ counted (complete_call problem.now (length res.old)) }
    ensures bytes { res.new ≡ after_complete (complete_call problem.now (length res.old)) res.old }
    ensures delivery { Delivery problem.now res.new result }
{
    if res.len() < limits::BUFFER {
        return Err(Refusal {
            reason: Reason::ShortBuffer,
            place: 0,
        });
    }
    let input = problem::parse(problem)?;
    Ok(accepted(problem, input, res))
}
