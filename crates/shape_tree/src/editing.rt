//! An edit of a kept tree: some items give way to others, and few nodes are fresh.
ghost use Rattle.std.specs.Prelude.{◌≡◌, ◌<◌, ◌≤◌, ◌^◌, ◌+◌, List, [], length, IfOk};
ghost use Rattle.std.specs.List.{splice};
ghost use Rattle.shape_tree.specs.Shapes.{items_of, fresh_nodes};
ghost use Rattle.shape_tree.specs.Balance.{IsLeaf, IsBalanced};
ghost use Rattle.shape_tree.specs.Parts.{IsPartOfOne, AreParts};
ghost use Rattle.shape_tree.specs.Heights.{IsLow};
ghost use Rattle.shape_tree.specs.Edits.{most_fresh};
ghost use Rattle.shape_tree.specs.declared.shape.Shape.{Kept as kept_shape};

use crate::building::build;
use crate::kept::{Kept, Share};
use crate::replacing::replace;
use crate::shape::Shape;
use crate::splitting::{concat, split};
use std::alloc::{AllocError, Global};

/// The items of the old tree, with `deleted` of them from `at` on replaced by `inserted`.
pub fn edit<T: Kept>(
    alloc: Global,
    leaf: &T,
    old: &T,
    at: u32,
    deleted: u32,
    inserted: &[T::Item],
) -> Result<Shape<T>, AllocError>
    requires leaf { IsLeaf T.items T.height_of leaf.now }
    requires fits { length (T.items old.now) + length inserted.now < 2 ^ 31 }
    requires within { at + deleted ≤ length (T.items old.now) }
    ensures items { IfOk result (λ s.
        items_of T.items s ≡ splice (T.items old.now) at (at + deleted) inserted.now) }
    ensures balanced { IfOk result (IsBalanced T.height_of) }
    ensures fresh { IfOk result (λ s.
        fresh_nodes s
        ≤ most_fresh (length inserted.now) (length (T.items old.now))
        (length (items_of T.items s))) }

    // One item in the place of one leaves at most a path from the root fresh.
    ensures one { deleted ≡ 1 → length inserted.now ≡ 1
        → IfOk result (λ s. fresh_nodes s ≤ T.height_of old.now) }
    ensures same { deleted ≡ 0 → inserted.now ≡ []
        → IfOk result (λ s. s ≡ kept_shape old.now) }
    ensures parts { IfOk result (λ s. (given : List T)
        → IsPartOfOne T.has_parts given leaf.now → IsPartOfOne T.has_parts given old.now
        → AreParts T.has_parts given s) }
{
    // What follows stands on how low a tree of so many items is.
    let _height = old.height();
    if deleted == 0 && inserted.is_empty() {
        return Ok(Shape::Kept(old.share()?));
    }
    if deleted == 1 && inserted.len() == 1 {
        let item = inserted[0].share()?;
        return Ok(replace(alloc, Shape::Kept(old.share()?), at, item)?);
    }
    Ok(cut_and_join(alloc, leaf, old, at, deleted, inserted)?)
}

// The old tree is cut at both ends of what is deleted, and the middle is built anew.
fn cut_and_join<T: Kept>(
    alloc: Global,
    leaf: &T,
    old: &T,
    at: u32,
    deleted: u32,
    inserted: &[T::Item],
) -> Result<Shape<T>, AllocError>
    requires leaf { IsLeaf T.items T.height_of leaf.now }
    requires fits { length (T.items old.now) + length inserted.now < 2 ^ 31 }
    requires low { IsLow (length (T.items old.now)) (T.height_of old.now) }
    requires within { at + deleted ≤ length (T.items old.now) }
    ensures items { IfOk result (λ s.
        items_of T.items s ≡ splice (T.items old.now) at (at + deleted) inserted.now) }
    ensures balanced { IfOk result (IsBalanced T.height_of) }
    ensures fresh { IfOk result (λ s.
        fresh_nodes s
        ≤ most_fresh (length inserted.now) (length (T.items old.now))
        (length (items_of T.items s))) }
    ensures parts { IfOk result (λ s. (given : List T)
        → IsPartOfOne T.has_parts given leaf.now → IsPartOfOne T.has_parts given old.now
        → AreParts T.has_parts given s) }
{
    let (front, rest) = split(alloc, Shape::Kept(old.share()?), at)?;
    let (_, back) = split(alloc, rest, deleted)?;
    let middle = build(alloc, leaf, inserted)?;
    let begun = concat(alloc, leaf, front, middle)?;
    let whole = concat(alloc, leaf, begun, back)?;
    Ok(whole)
}
