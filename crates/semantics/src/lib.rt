// The paper's meanings stand in specs/; proofs/ has the worked laws, computed. There is no code
// here.

#![tactic(auto)]
