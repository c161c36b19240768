// Every claim, with the line of its proof; no function.
#![tactic(auto)]
