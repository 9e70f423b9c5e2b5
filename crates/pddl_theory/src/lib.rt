// Laws about the meaning of PDDL; no code.

#![tactic(auto)]
