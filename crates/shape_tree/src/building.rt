//! A shape of fresh nodes alone.
ghost use Rattle.std.specs.Prelude.{◌≡◌, ◌<◌, ◌^◌, List, length, IfOk};
ghost use Rattle.shape_tree.specs.Shapes.{items_of, shape_height, fresh_nodes};
ghost use Rattle.shape_tree.specs.Balance.{IsLeaf, IsBalanced};
ghost use Rattle.shape_tree.specs.Parts.{IsPartOfOne, AreParts};
ghost use Rattle.shape_tree.specs.Heights.{IsLeastHeight};
ghost use Rattle.shape_tree.specs.Edits.{IsBuilt};

use crate::kept::{Kept, Share};
use crate::shape::{FreshNode, Shape};
use std::alloc::{AllocError, Global};

/// Just these items, with the middle one at the root, and the leaf where none is left.
pub fn build<T: Kept>(alloc: Global, leaf: &T, items: &[T::Item]) -> Result<Shape<T>, AllocError>
    requires leaf { IsLeaf T.items T.height_of leaf.now }
    requires fits { length items.now < 2 ^ 31 }
    ensures built { IfOk result (IsBuilt leaf.now items.now) }
    ensures items { IfOk result (λ s. items_of T.items s ≡ items.now) }
    ensures height { IfOk result (λ s.
        IsLeastHeight (length items.now) (shape_height T.height_of s)) }
    ensures balanced { IfOk result (IsBalanced T.height_of) }
    ensures fresh { IfOk result (λ s. fresh_nodes s ≡ length items.now) }
    ensures parts { IfOk result (λ s. (given : List T)
        → IsPartOfOne T.has_parts given leaf.now → AreParts T.has_parts given s) }
{
    if items.is_empty() {
        return Ok(Shape::Kept(leaf.share()?));
    }
    let half = items.len() / 2;
    let left = build(alloc, leaf, &items[..half])?;
    let item = items[half].share()?;
    let right = build(alloc, leaf, &items[half + 1..])?;
    let node = Box::new(alloc, FreshNode { left, item, right })?;
    Ok(Shape::Fresh(node))
}
