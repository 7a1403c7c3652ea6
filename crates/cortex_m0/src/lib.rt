// The Cortex-M0: document 02's request E10. Nothing here runs: the statement is specs/SmallCore.antt.
#![tactic(auto)]
