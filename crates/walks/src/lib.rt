// The offset after a name or a query that reads well.
#![tactic(auto)]

ghost use Rattle.definitions.specs.Reading.{read_name, read_query};
ghost use Rattle.laws.specs.Walks.{Loads};
ghost use Rattle.laws.specs.ReadAnswers.{Ends};

use reader::script::{read_name, read_query};

// Ruled out: the offset of the name itself; the length of the other kind of name.
pub fn after_name(script: &[u8], terms: usize, at: usize, left: u8) -> usize
    requires { Loads (read_name script.now terms left at) }
    ensures { Ends (read_name script.now terms left at) result }
{
    read_name(script, terms, at, left).unwrap()
}

// Ruled out: the end of the query's first part; one byte too far.
pub fn after_query(script: &[u8], terms: usize, at: usize, left: u8) -> usize
    requires { Loads (read_query script.now terms left at) }
    ensures { Ends (read_query script.now terms left at) result }
{
    read_query(script, terms, at, left).unwrap()
}
