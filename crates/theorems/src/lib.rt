// The demands and what they rest on, as theorems. No code.
#![tactic(auto)]
