// Old scripts on a chip with more lines, said of what runs. Nothing here runs: the statement is specs/OldReplies.antt.
#![tactic(auto)]
