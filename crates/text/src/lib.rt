// The text that a script makes, on any chip. Nothing here runs: the definitions are specs/Text.antt.
#![tactic(auto)]
