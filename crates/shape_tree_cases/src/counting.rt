//! A maker that counts the nodes it makes, and the trees that it makes of shapes.
ghost use Rattle.std.specs.Prelude.{◌≡◌, ◌+◌, ◌<◌, ◌≤◌, ◌^◌, length, IfOk};
ghost use Rattle.std.specs.List.{splice};
ghost use Rattle.shape_tree.specs.Edits.{most_fresh};
ghost use Rattle.shape_tree_cases.specs.Trees.{IsLowTree};

use crate::shared_tree::SharedTree;
use shape_tree::{Kept, Maker, Shape, build, edit, realise};
use std::alloc::{AllocError, Global};

/// Makes the nodes of shared trees, and counts them.
#[derive(Drop)]
pub struct NodeCounter {
    pub alloc: Global,
    pub made: u32,
}

impl Maker<SharedTree> for NodeCounter {
    ghost made = { λ m. m.made };

    ghost is_sound = { λ m t. IsLowTree t };

    ghost takes = { λ m i. Unit {0} };

    ghost held = { λ m. 0 };

    fn leaf(&mut self) -> SharedTree {
        SharedTree::leaf()
    }

    fn node(
        &mut self,
        left: SharedTree,
        item: Option<u16>,
        right: SharedTree,
    ) -> Result<SharedTree, AllocError> {
        self.made = self.made.saturating_add(1);
        Ok(SharedTree::node(self.alloc, left, item, right)?)
    }
}

/// A tree of these items, and a node made for each.
#[tactic(auto, using(crate::proofs::TreeLemmas::takes_all))]
pub fn tree_of(
    alloc: Global,
    items: &[Option<u16>],
    maker: &mut NodeCounter,
) -> Result<SharedTree, AllocError>
    requires fits { length items.now < 2 ^ 31 }
    ensures items { IfOk result (λ t. t.items ≡ items.now) }
    ensures made { maker.new.made ≤ maker.old.made + length items.now }
{
    let leaf = SharedTree::leaf();
    let shape = build(alloc, &leaf, items)?;
    Ok(realise(shape, maker)?)
}

/// The tree with some items replaced by others, and few nodes made.
#[tactic(auto, using(crate::proofs::TreeLemmas::takes_all))]
pub fn edited(
    alloc: Global,
    old: &SharedTree,
    at: u32,
    deleted: u32,
    inserted: &[Option<u16>],
    maker: &mut NodeCounter,
) -> Result<SharedTree, AllocError>
    requires fits { length old.now.items + length inserted.now < 2 ^ 31 }
    requires within { at + deleted ≤ length old.now.items }
    ensures items { IfOk result (λ t.
        t.items ≡ splice old.now.items at (at + deleted) inserted.now) }
    ensures made { maker.new.made ≤ maker.old.made
        + most_fresh (length inserted.now) (length old.now.items)
        (length (splice old.now.items at (at + deleted) inserted.now)) }
{
    let leaf = SharedTree::leaf();
    let _height = old.height();
    let shape: Shape<SharedTree> = edit(alloc, &leaf, old, at, deleted, inserted)?;
    Ok(realise(shape, maker)?)
}
