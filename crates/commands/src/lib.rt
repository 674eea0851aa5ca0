// Commands, answers, refusals and the run of a journal, with the planner's name list and the whole-run claim. Definitions in specs/, laws in proofs/, no code.
#![tactic(auto)]
