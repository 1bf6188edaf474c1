// Rewriting: definitions, theory, and how the work ends. The code that rewrites stands in `redex` and `normaliser`.
#![tactic(auto)]

ghost use Rattle.std.specs.Prelude.{◌≡◌};
ghost use Rattle.rewriting.specs.Ends.{number_of};

// How a run ends, by the papers' numbers; specs/Ends has what each case says.
#[derive(Clone, Copy, Debug, PartialEq, Eq)]
pub enum End {
    Complete = 0,
    // Neither side above the other.
    NeitherAbove = 20,
    // A unit due and the budget spent.
    Spent = 21,
    // A term over 120 nodes, or a taken pair over 16 variables.
    TooLarge = 22,
    // A 33rd live rule.
    RulesFull = 23,
    // A 513th log entry due.
    LogFull = 24,
}

// The papers' number of an end.
impl From<End> for u8 {
    ghost from_gives = { λ end n. n ≡ number_of end };

    #[tactic(auto, unfolding(crate::specs::Ends::number_of))]
    fn from(end: End) -> u8 {
        end as u8
    }
}
