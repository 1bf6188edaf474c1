// A problem with one equation: where the sides of that equation stand.
#![tactic(auto)]

ghost use Rattle.only_equation.specs.Places.{IsSides};

use problem::{Reason, Refusal};

// The table's end, where each side begins, and the end of the second; and the problem's budget.
#[derive(Clone, Copy, Debug, PartialEq, Eq)]
pub struct Equation {
    pub table_end: usize,
    pub left: usize,
    pub right: usize,
    pub end: usize,
    pub budget: usize,
}

// The two sides of the problem's one equation.
pub fn sides(problem: &[u8]) -> Result<Equation, Refusal>
    ensures { IsSides problem.now result }
{
    let input = problem::parse(problem)?;
    let Some(field) = reading::field_at(problem, input.equations) else {
        // What `parse` has accepted ends with whole fields: there is no equation.
        return Err(Refusal {
            reason: Reason::NotOneEquation,
            place: problem.len(),
        });
    };
    if input.count > 1 {
        return Err(Refusal {
            reason: Reason::NotOneEquation,
            place: field.end,
        });
    }
    let table = &problem[limits::FIELD_HEAD..input.table_end];
    let right = terms::term_end(problem, table, field.start);
    Ok(Equation {
        table_end: input.table_end,
        left: field.start,
        right,
        end: field.end,
        budget: input.budget,
    })
}
