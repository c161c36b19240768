// What a function that reads answers, against a parser of the definitions: definitions and laws
// alone.
#![tactic(auto)]
