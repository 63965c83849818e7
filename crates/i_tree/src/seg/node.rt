//! The lists of a bucket tree's nodes: for each of the 63 nodes the places in the pool of what is inserted
//! there. Room is made at all nodes of a mask before any of them is written. Each call goes once over the
//! nodes.
ghost use Rattle.std.specs.Prelude.{◌≡◌, ◌<◌, ℕ, [], ◌∷◌, ◌++◌, map, length, IfOk, OnOk, if◌then◌else◌};
ghost use Rattle.i_tree.specs.Ranges.Nodes.{list_at, has_node, HaveRoom};

use crate::seg::iter::NODES;
use std::alloc::{AllocError, Global};

// The lists of a tree with no insertion.
pub(crate) fn empty_nodes(alloc: Global) -> Result<Vec<Vec<u32>>, AllocError>
    ensures all { IfOk result (λ nodes. length nodes.items ≡ 63) }
    ensures empty { IfOk result (λ nodes. (node : ℕ) → list_at (map (λ v. v.items) nodes.items) node ≡ []) }
{
    let mut nodes = Vec::with_capacity(alloc, NODES)?;
    for i in 0..NODES {
        nodes.push(Vec::new(alloc))?;
    }
    Ok(nodes)
}

// Drops all names.
pub(crate) fn empty(nodes: &mut [Vec<u32>])
    requires { length nodes.old ≡ 63 }
    ensures { (node : ℕ) → node < 63 → list_at (map (λ v. v.items) nodes.new) node ≡ [] }
{
    for node in 0..NODES {
        let list = &mut nodes[node];
        list.clear();
    }
}

// Makes room for one name more at each node of a mask. The lists stay, whatever the answer.
pub(crate) fn make_room(nodes: &mut [Vec<u32>], mask: u64) -> Result<(), AllocError>
    requires { length nodes.old ≡ 63 }
    ensures lists { map (λ v. v.items) nodes.new ≡ map (λ v. v.items) nodes.old }
    ensures room { OnOk result (HaveRoom mask 63 nodes.new) }
{
    for node in 0..NODES {
        if mask >> node & 1 == 1 {
            let list = &mut nodes[node];
            list.reserve(1)?;
        }
    }
    Ok(())
}

// Names a place at each node of a mask, where there is room.
pub(crate) fn place(nodes: &mut [Vec<u32>], mask: u64, at: u32)
    requires all { length nodes.old ≡ 63 }
    requires room { HaveRoom mask 63 nodes.old }
    ensures { (node : ℕ) → node < 63 → list_at (map (λ v. v.items) nodes.new) node ≡
        (if has_node mask node then list_at (map (λ v. v.items) nodes.old) node ++ at ∷ [] else list_at (map (λ v. v.items) nodes.old) node) }
{
    for node in 0..NODES {
        if mask >> node & 1 == 1 {
            let list = &mut nodes[node];
            let _added = list.push(at);
        }
    }
}
