// What work memory holds, as lists; it has definitions and laws alone.
#![tactic(auto)]
