// Strings: the texts that str gives, and the tests of filters on strings.
#![tactic(auto)]

mod line; // a text written from the front
pub mod tests; // patterns and language ranges on strings
pub mod text; // str
