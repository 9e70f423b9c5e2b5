// What the PDDL writer writes reads back; laws only, no code.

#![tactic(auto)]
