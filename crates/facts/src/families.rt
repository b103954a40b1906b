// A union-find of type families. The first nodes are the families of URIs, strings, numbers and date_times; then one stands
// for each variable's datatype, then one for each variable's range.
ghost use Rattle.std.specs.Prelude.{◌≡◌, ◌<◌};
ghost use Rattle.facts.specs.Tables.{node_limit};
ghost use Rattle.facts.specs.UnionFind.{Forest, root_in, merge_in};
ghost use Rattle.laws.specs.Lists.{up_from};

use crate::NODES;

// The parent of each node, which is not above it; a root is its own.
#[derive(Clone, Copy)]
pub struct Families {
    pub parents: [u8; NODES],
}

fn wide(x: u8) -> usize
    ensures { result ≡ x }
{
    x as usize
}

fn narrow(x: usize) -> u8
    requires { x < node_limit }
    ensures { result ≡ x }
{
    x as u8
}

impl Families {
    // Each node alone.
    // Ruled out: a node in another's class; a node left out.
    pub fn fresh() -> Families
        ensures { result.parents ≡ up_from 0 node_limit }
    {
        let mut parents = [0; NODES];
        for node in 0..NODES {
            parents[node] = narrow(node);
        }
        Families { parents }
    }

    // The least node of a node's class.
    // Ruled out: the node's parent, which may be no root; the greatest node of the class.
    pub fn root(self, node: usize) -> usize
        requires { Forest node_limit self.parents × (node < node_limit) }
        ensures { result ≡ root_in self.parents node }
    {
        let mut at = node;
        let mut up = wide(self.parents[at]);
        while up != at {
            at = up;
            up = wide(self.parents[at]);
        }
        at
    }

    // Makes the classes of two nodes one: the greater root gets the lesser for a parent.
    // Ruled out: the nodes joined and not their roots; the lesser root below the greater.
    pub fn merge(mut self, a: usize, b: usize) -> Families
        requires { Forest node_limit self.parents × (a < node_limit) × (b < node_limit) }
        ensures { result.parents ≡ merge_in self.parents a b }
    {
        let p = self.root(a);
        let q = self.root(b);
        if p < q {
            self.parents[q] = narrow(p);
        } else {
            self.parents[p] = narrow(q);
        }
        self
    }
}
