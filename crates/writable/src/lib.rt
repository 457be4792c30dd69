// What a call writes can be read back: no code, the statements stand in specs/ and the proofs in proofs/.
#![tactic(auto)]
