// Priority bytes of three to eight bits: document 02's request E7. Nothing here runs: the statement is specs/PriorityBits.antt.
#![tactic(auto)]
