// Triples as the records of a page: how two of them stand to each other, and what holds of a page of them. No code.
#![tactic(auto)]
