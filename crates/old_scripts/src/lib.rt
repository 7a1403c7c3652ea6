// A script written for a chip runs the same on one with more lines. Nothing here runs: the statement is specs/OldScripts.antt.
#![tactic(auto)]
