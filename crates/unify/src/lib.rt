// Unification: the definition and its theory only. The code that unifies stands in `mgu`.
#![tactic(auto)]
