// Laws about the meanings of `semantics` stand in proofs/: masks against sets of facts, the
// listing, demand 2, demand 3. There is no code here.

#![tactic(auto)]
