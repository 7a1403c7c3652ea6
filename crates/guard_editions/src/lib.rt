// The guard's next edition: document 02's request E12. Nothing here runs: the statement is specs/GuardEditions.antt.
#![tactic(auto)]
