// Completion: definitions and theory only. The code that computes them stands in the crates above.
#![tactic(auto)]
