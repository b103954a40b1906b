// Type safety of the machine, step by step: what run and page calls and the demands rest on. No code.
#![tactic(auto)]
