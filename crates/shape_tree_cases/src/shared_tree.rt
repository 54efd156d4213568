//! A balanced tree of shared nodes, each of which keeps its length and its height.
ghost use Rattle.std.specs.Prelude.{◌≡◌, ◌+◌, ◌<◌, ◌^◌, [], ◌∷◌, ◌++◌, length, max, IfOk};
ghost use Rattle.shape_tree.specs.Balance.{AreNear};
ghost use Rattle.shape_tree_cases.specs.Trees.{HasLowParts, IsLowTree};

use shape_tree::{Kept, Share};
use std::alloc::{AllocError, Global};
use std::marker::Model;
use std::sync::Arc;

/// A leaf, or a shared node.
#[cycle(shared_tree)]
#[derive(Drop)]
pub struct SharedTree {
    root: Option<Arc<Node>>,
}

#[cycle(shared_tree)]
#[derive(Drop)]
struct Node {
    left: SharedTree,
    item: Option<u16>,
    right: SharedTree,
    len: u32,
    height: u32,
}

impl Model for SharedTree {
    ghost use Rattle.shape_tree_cases.specs.Trees.{TreeValue};

    ghost Value = { TreeValue };

    ghost use Rattle.shape_tree_cases.specs.Nodes.{value_of, IsWhole};

    ghost view = { value_of };

    ghost invariant = { λ t. IsWhole t.root };

    ghost size = { λ v. v.height };

    ghost use Rattle.std.proofs.Common.{arith};

    ghost size_decreases = { λ t h. Prim.grind arith };
}

impl SharedTree {
    /// A tree without items.
    pub fn leaf() -> SharedTree
        ensures items { result.items ≡ [] }
        ensures height { result.height ≡ 0 }
    {
        SharedTree { root: None }
    }

    /// The items of the left tree, the item, and those of the right tree.
    pub fn node(
        alloc: Global,
        left: SharedTree,
        item: Option<u16>,
        right: SharedTree,
    ) -> Result<SharedTree, AllocError>
        requires near { AreNear left.height right.height }
        requires fits { length left.items + length right.items < 2 ^ 31 }
        ensures items { IfOk result (λ t. t.items ≡ left.items ++ item ∷ right.items) }
        ensures height { IfOk result (λ t. t.height ≡ max left.height right.height + 1) }
        ensures low { IfOk result IsLowTree }
    {
        let height = left.height().max(right.height()) + 1;
        let len = left.len() + 1 + right.len();
        let node = Node {
            left,
            item,
            right,
            len,
            height,
        };
        let root = Arc::new(alloc, node)?;
        let tree = SharedTree { root: Some(root) };
        let _height = tree.height();
        Ok(tree)
    }
}

impl Share for SharedTree {
    fn share(&self) -> Result<SharedTree, AllocError> {
        match &self.root {
            None => Ok(SharedTree { root: None }),
            Some(node) => Ok(SharedTree {
                root: Some(Arc::try_clone(node)?),
            }),
        }
    }
}

impl Kept for SharedTree {
    type Item = Option<u16>;

    ghost items = { λ t. t.items };

    ghost height_of = { λ t. t.height };

    ghost has_parts = { HasLowParts };

    fn len(&self) -> u32 {
        match &self.root {
            None => 0,
            Some(node) => node.len,
        }
    }

    fn height(&self) -> u32 {
        match &self.root {
            None => 0,
            Some(node) => node.height,
        }
    }

    fn parts(&self) -> Result<Option<(SharedTree, Option<u16>, SharedTree)>, AllocError> {
        match &self.root {
            None => Ok(None),
            Some(node) => {
                let left = node.left.share()?;
                let right = node.right.share()?;
                let _heights = (left.height(), right.height());
                Ok(Some((left, node.item, right)))
            }
        }
    }
}
