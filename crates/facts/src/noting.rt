// The tables, and noting in them what a script demands.
ghost use Rattle.std.specs.Prelude.{◌≡◌, ◌<◌};
ghost use Rattle.definitions.specs.Limits.{variable_limit};
ghost use Rattle.facts.specs.UnionFind.{Forest};
ghost use Rattle.codes.specs.TypeCodes.{datatype_of};
ghost use Rattle.facts.specs.Codes.{place_of, PlaceIn};
ghost use Rattle.facts.specs.Tables.{node_limit, fresh, merged, at_most, as_property, at_least, edge, impossible, related};

use crate::families::Families;
use crate::{EDGES, FAMILIES, Place, RANGE_NODES};
use definitions::VARIABLE_LIMIT;

// What a script's demands come to. Flags, for each variable: its datatype has to be integer; its range has to be decimal;
// its type has to be a range. For each pair of variables: the first one is a property, and the second one its object.
#[derive(Clone, Copy)]
pub struct Tables {
    pub families: Families,
    pub low: [bool; VARIABLE_LIMIT],
    pub high: [bool; VARIABLE_LIMIT],
    pub property: [bool; VARIABLE_LIMIT],
    pub edges: [bool; EDGES],
}

impl Tables {
    // Nothing noted.
    // Ruled out: a variable that is a property from the start; families joined.
    pub fn fresh() -> Tables
        ensures { result ≡ fresh }
    {
        let families = Families::fresh();
        let low = [false; VARIABLE_LIMIT];
        let high = [false; VARIABLE_LIMIT];
        let property = [false; VARIABLE_LIMIT];
        let edges = [false; EDGES];
        Tables {
            families,
            low,
            high,
            property,
            edges,
        }
    }

    // Two nodes are of one family.
    // Ruled out: the flags forgotten; nodes joined and not their classes.
    pub fn merged(mut self, m: usize, n: usize) -> Tables
        requires { Forest node_limit self.families.parents × (m < node_limit) × (n < node_limit) }
        ensures { result ≡ merged m n self }
    {
        let families = self.families;
        let joined = families.merge(m, n);
        self.families = joined;
        self
    }

    // A variable's datatype is at most the one given.
    // Ruled out: integer noted of every number; the family left open.
    pub fn at_most(self, x: usize, datatype: u8) -> Tables
        requires { Forest node_limit self.families.parents × (x < variable_limit) }
        ensures { result ≡ at_most x (datatype_of datatype) self }
    {
        let family = codes::family(datatype);
        let mut tables = self.merged(FAMILIES + x, family);
        if datatype == 5 {
            tables.low[x] = true;
            return tables;
        }
        tables
    }

    // A variable is a property.
    // Ruled out: a property that may stay any_uri; a property of any family.
    pub fn as_property(self, p: usize) -> Tables
        requires { Forest node_limit self.families.parents × (p < variable_limit) }
        ensures { result ≡ as_property p self }
    {
        let mut tables = self.merged(FAMILIES + p, 0);
        tables.property[p] = true;
        tables
    }

    // A variable is a property, and its range is at least the datatype given.
    // Ruled out: decimal noted of every number; the range's family left open.
    pub fn at_least(self, p: usize, datatype: u8) -> Tables
        requires { Forest node_limit self.families.parents × (p < variable_limit) }
        ensures { result ≡ at_least p (datatype_of datatype) self }
    {
        let family = codes::family(datatype);
        let mut tables = self.as_property(p).merged(RANGE_NODES + p, family);
        if datatype == 3 {
            tables.high[p] = true;
            return tables;
        }
        tables
    }

    // A variable is a property, and another one its object.
    // Ruled out: property and object swapped; a pair noted with no family joined.
    pub fn edge(self, p: usize, x: usize) -> Tables
        requires { Forest node_limit self.families.parents × (p < variable_limit) × (x < variable_limit) }
        ensures { result ≡ edge p x self }
    {
        let mut tables = self.as_property(p).merged(RANGE_NODES + p, FAMILIES + x);
        let at = VARIABLE_LIMIT * p + x;
        tables.edges[at] = true;
        tables
    }

    // No typing: two families are one.
    // Ruled out: a demand that fails noted as nothing; a flag set in its place.
    pub fn impossible(self) -> Tables
        requires { Forest node_limit self.families.parents }
        ensures { result ≡ impossible self }
    {
        self.merged(0, 1)
    }

    // A property and its object.
    // Ruled out: an any_uri constant taken for a property; an object above the range taken.
    pub fn related(self, property: Place, object: Place) -> Tables
        requires { Forest node_limit self.families.parents × PlaceIn property × PlaceIn object }
        ensures { result ≡ related (place_of property) (place_of object) self }
    {
        match property {
            Place::Variable(p) => match object {
                Place::Variable(x) => self.edge(p, x),
                Place::Known(code) => self.at_least(p, codes::own(code)),
            },
            Place::Known(code) => {
                if code < 8 {
                    return self.impossible();
                }
                let range = code - 8;
                match object {
                    Place::Variable(x) => self.at_most(x, range),
                    Place::Known(other) => {
                        if codes::below(codes::own(other), range) {
                            return self;
                        }
                        self.impossible()
                    }
                }
            }
        }
    }
}
