// Worked examples at the scope's own sizes; no function.
#![tactic(auto)]
