//! Terms, node by node.
ghost use Rattle.std.specs.Prelude.{◌≡◌, ◌<◌, ◌≤◌, ◌+◌, ◌∷◌, [], length, take, drop};
ghost use Rattle.dps_terms.specs.Tree.{node_count, IsSubterm};
ghost use Rattle.dps_terms.specs.Seen.{seen};
ghost use Rattle.dps_terms.specs.Views.{arguments};
ghost use Rattle.dps_terms.specs.Walk.{subterms_from};

use crate::TermRef;
use crate::cells::split_first;

/// The nodes are counted from 0 in preorder: a root before its arguments, and these from left to right. So one loop from
/// the last node to the first, with a `TermStack` for what was made of the subterms behind a node, goes over a term of any
/// depth.
impl<'a> TermRef<'a> {
    /// The number of nodes, leaves and symbols.
    pub fn node_count(self) -> usize
        ensures count { result ≡ node_count (seen self.entry) }
        ensures end { subterms_from (seen self.entry) result ≡ [] }
    {
        self.cells.len()
    }

    /// The subterm whose root is the node with this number. There has to be one.
    pub fn subterm(self, node: usize) -> TermRef<'a>
        requires { node < node_count (seen self) }
        ensures first { subterms_from (seen self.entry) node ≡ seen result ∷ drop (length (arguments (seen result))) (subterms_from (seen self.entry) (node + 1)) }
        ensures inside { IsSubterm (seen result) (seen self.entry) }
        ensures within { node + node_count (seen result) ≤ node_count (seen self.entry) }
        ensures behind { subterms_from (seen self.entry) (node + node_count (seen result)) ≡ drop 1 (subterms_from (seen self.entry) node) }
        ensures below { arguments (seen result) ≡ take (length (arguments (seen result))) (subterms_from (seen self.entry) (node + 1)) }
    {
        let (_, rest) = self.cells.split_at(node);
        TermRef {
            cells: split_first(rest).0,
        }
    }
}
