// Walks over a script that reads well: the variables used, those free and bound (refusal 7).
#![tactic(auto)]

pub mod uses; // uses.rt: the variables that stand in a name, an expression, a boolean, a query
pub mod scope; // scope.rt: the variables free and bound in a script (refusal 7)
