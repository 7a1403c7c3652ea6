// Masks only hold back: document 02's request E13. Nothing here runs: the statement is specs/MasksHoldBack.antt.
#![tactic(auto)]
