// A call on the state held is the rules' call on its view: no code, the statements stand in specs/ and the proofs in proofs/.
#![tactic(auto)]
