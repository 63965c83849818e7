//! The node before a node, its in-order predecessor: the rightmost on its left, else the first upward on whose
//! right it lies. Degenerate cases: before the first node there is none. It takes a step for each level at
//! most.
ghost use Rattle.std.specs.Prelude.{◌≡◌, ◌++◌};
ghost use Rattle.i_tree.specs.Tree.Shape.{names, names_before};
ghost use Rattle.i_tree.specs.Tree.Pool.{Focus};
ghost use Rattle.i_tree.specs.Tree.Order.{Fork, IsLast, last_of};

use crate::tree::pool::{NO_NODE, Pool};

impl<T: Drop> Pool<T> {
    /// The rightmost node at or below a node.
    pub fn last(&self, i: u32) -> u32
        requires { Focus self.now.pool i }
        ensures { (focus : Focus self.now.pool i) → IsLast focus.tree result }
    {
        let mut at = i;
        let mut right = self.links(at).right;
        while right != NO_NODE {
            at = right;
            right = self.links(at).right;
        }
        at
    }

    /// The node just before a node, or `NO_NODE`.
    pub fn previous(&self, i: u32) -> u32
        requires { Fork self.now.pool i }
        ensures { (fork : Fork self.now.pool i) → result ≡ last_of NO_NODE (names_before fork.context ++ names fork.left) }
    {
        let left = self.links(i).left;
        if left != NO_NODE {
            return self.last(left);
        }
        self.above(i)
    }

    // The first node upward on whose right a node lies, or NO_NODE.
    fn above(&self, i: u32) -> u32
        requires { Focus self.now.pool i }
        ensures { (focus : Focus self.now.pool i) → result ≡ last_of NO_NODE (names_before focus.context) }
    {
        let mut at = i;
        let mut parent = self.links(i).parent;
        while parent != NO_NODE {
            if !self.is_left(at) {
                return parent;
            }
            at = parent;
            parent = self.links(at).parent;
        }
        NO_NODE
    }
}
