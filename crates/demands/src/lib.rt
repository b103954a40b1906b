// The demands and requests, held together with the contracts that the code meets. No code.
#![tactic(auto)]
