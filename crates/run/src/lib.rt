// The run: turns until one ends it.
#![tactic(auto)]

ghost use Rattle.std.specs.Prelude.{◌≤◌};
ghost use Rattle.limits.specs.Limits.{most_equations};
ghost use Rattle.slots.specs.Slots.{Layout};
ghost use Rattle.state.specs.Run.{Fine};
ghost use Rattle.run.specs.Runs.{RunsFrom, Runs};

use rewriting::End;
use slots::Pairs;
use state::State;

// The last state; how the run ended; the units paid.
#[derive(Drop)]
pub struct Ran {
    pub state: State,
    pub end: End,
    pub paid: u32,
}

// Turns from a state until one ends the run; its units are the budget.
pub fn run_from(first: State, inputs: Pairs, table: &[u8]) -> Ran
    requires { Fine first × Layout inputs.bytes inputs.count × (inputs.count ≤ most_equations) }
    ensures { RunsFrom table.now inputs first result }
{
    let number = inputs.count;
    let budget = first.units;
    let mut t = turn::turn(first, &inputs.bytes, number, table);
    loop {
        if let Some(end) = t.end {
            return Ran {
                state: t.state,
                end,
                paid: budget - t.state.units,
            };
        }
        t = turn::turn(t.state, &inputs.bytes, number, table);
    }
}

// Turns from the input equations.
pub fn run(inputs: Pairs, table: &[u8], budget: u32) -> Ran
    requires { Layout inputs.bytes inputs.count × (inputs.count ≤ most_equations) }
    ensures { Runs table.now inputs budget result }
{
    run_from(State::initial(inputs, budget), inputs, table)
}
