// Refusals: the first demand. Nothing here runs: the statement is specs/Demand1.antt.
#![tactic(auto)]
