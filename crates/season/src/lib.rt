// No code: the definitions at work over whole tables, call by call, in proofs/.
#![tactic(auto)]
