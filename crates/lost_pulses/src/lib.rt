// The pulses that a line loses: document 02's request E1. Nothing here runs: the statement is specs/LostPulses.antt.
#![tactic(auto)]
