//! Two shapes and an item between them become one shape, along one spine of the higher.
ghost use Rattle.std.specs.Prelude.{◌≡◌, ◌<◌, ◌≤◌, ◌^◌, ◌+◌, ◌*◌, List, length, IfOk};
ghost use Rattle.std.specs.Prelude.{◌++◌, ◌∷◌, max, min};
ghost use Rattle.shape_tree.specs.Shapes.{items_of, shape_height, fresh_nodes};
ghost use Rattle.shape_tree.specs.Shapes.{node_items, node_height, fresh_below};
ghost use Rattle.shape_tree.specs.Balance.{IsBalanced, IsBalancedNode};
ghost use Rattle.shape_tree.specs.Parts.{AreParts, AreNodeParts};

use crate::kept::Kept;
use crate::opening::{Opened, close, open};
use crate::shape::{FreshNode, Shape};
use crate::turning::{settle_left, settle_right};
use std::alloc::{AllocError, Global};

// Down the right spine of the left side, which is no lower.
fn join_right<T: Kept>(
    alloc: Global,
    left: Shape<T>,
    item: T::Item,
    right: Shape<T>,
) -> Result<FreshNode<T>, AllocError>
    requires left { IsBalanced T.height_of left }
    requires right { IsBalanced T.height_of right }
    requires order { shape_height T.height_of right ≤ shape_height T.height_of left }
    requires fits { length (items_of T.items left) + length (items_of T.items right) < 2 ^ 31 }
    ensures items { IfOk result (λ n.
        node_items T.items n ≡ items_of T.items left ++ item ∷ items_of T.items right) }
    ensures balanced { IfOk result (IsBalancedNode T.height_of) }
    ensures not_lower { IfOk result (λ n.
        shape_height T.height_of left ≤ node_height T.height_of n) }
    ensures not_higher { IfOk result (λ n.
        node_height T.height_of n ≤ shape_height T.height_of left + 1) }
    ensures fresh { IfOk result (λ n.
        fresh_below n + node_height T.height_of n + shape_height T.height_of right
        ≤ fresh_nodes left + fresh_nodes right + 2 * shape_height T.height_of left + 1) }
    ensures parts { IfOk result (λ n. (given : List T)
        → AreParts T.has_parts given left → AreParts T.has_parts given right
        → AreNodeParts T.has_parts given n) }
{
    if left.height() <= right.height() + 1 {
        return Ok(FreshNode { left, item, right });
    }
    let Opened::Node(node) = open(left)? else {
        unreachable!()
    };
    let joined = join_right(alloc, node.right, item, right)?;
    Ok(settle_right(alloc, node.left, node.item, joined)?)
}

// Down the left spine of the right side, which is no lower.
fn join_left<T: Kept>(
    alloc: Global,
    left: Shape<T>,
    item: T::Item,
    right: Shape<T>,
) -> Result<FreshNode<T>, AllocError>
    requires left { IsBalanced T.height_of left }
    requires right { IsBalanced T.height_of right }
    requires order { shape_height T.height_of left ≤ shape_height T.height_of right }
    requires fits { length (items_of T.items left) + length (items_of T.items right) < 2 ^ 31 }
    ensures items { IfOk result (λ n.
        node_items T.items n ≡ items_of T.items left ++ item ∷ items_of T.items right) }
    ensures balanced { IfOk result (IsBalancedNode T.height_of) }
    ensures not_lower { IfOk result (λ n.
        shape_height T.height_of right ≤ node_height T.height_of n) }
    ensures not_higher { IfOk result (λ n.
        node_height T.height_of n ≤ shape_height T.height_of right + 1) }
    ensures fresh { IfOk result (λ n.
        fresh_below n + node_height T.height_of n + shape_height T.height_of left
        ≤ fresh_nodes left + fresh_nodes right + 2 * shape_height T.height_of right + 1) }
    ensures parts { IfOk result (λ n. (given : List T)
        → AreParts T.has_parts given left → AreParts T.has_parts given right
        → AreNodeParts T.has_parts given n) }
{
    if right.height() <= left.height() + 1 {
        return Ok(FreshNode { left, item, right });
    }
    let Opened::Node(node) = open(right)? else {
        unreachable!()
    };
    let joined = join_left(alloc, left, item, node.left)?;
    Ok(settle_left(alloc, joined, node.item, node.right)?)
}

/// The items of the left shape, the item, and those of the right shape. Fresh nodes are added for
/// the difference of the two heights, and two.
pub fn join<T: Kept>(
    alloc: Global,
    left: Shape<T>,
    item: T::Item,
    right: Shape<T>,
) -> Result<Shape<T>, AllocError>
    requires left { IsBalanced T.height_of left }
    requires right { IsBalanced T.height_of right }
    requires fits { length (items_of T.items left) + length (items_of T.items right) < 2 ^ 31 }
    ensures items { IfOk result (λ s.
        items_of T.items s ≡ items_of T.items left ++ item ∷ items_of T.items right) }
    ensures balanced { IfOk result (IsBalanced T.height_of) }
    ensures not_lower { IfOk result (λ s.
        max (shape_height T.height_of left) (shape_height T.height_of right)
        ≤ shape_height T.height_of s) }
    ensures not_higher { IfOk result (λ s.
        shape_height T.height_of s
        ≤ max (shape_height T.height_of left) (shape_height T.height_of right) + 1) }
    ensures fresh { IfOk result (λ s.
        fresh_nodes s + min (shape_height T.height_of left) (shape_height T.height_of right)
        ≤ fresh_nodes left + fresh_nodes right
        + max (shape_height T.height_of left) (shape_height T.height_of right) + 2) }
    ensures parts { IfOk result (λ s. (given : List T)
        → AreParts T.has_parts given left → AreParts T.has_parts given right
        → AreParts T.has_parts given s) }
{
    if right.height() <= left.height() {
        let node = join_right(alloc, left, item, right)?;
        return Ok(close(alloc, node)?);
    }
    let node = join_left(alloc, left, item, right)?;
    Ok(close(alloc, node)?)
}
