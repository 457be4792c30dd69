// The rules of document 01 and what is promised of any run of calls. No code: the definitions stand in specs/, the arguments in proofs/.
#![tactic(auto)]
