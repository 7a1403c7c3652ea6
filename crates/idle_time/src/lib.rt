// Skipping idle time: document 02's request E5. Nothing here runs: the statement is specs/IdleTime.antt.
#![tactic(auto)]
