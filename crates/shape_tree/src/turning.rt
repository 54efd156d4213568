//! A node put beside a lower side, turned once or twice where it is two higher.
ghost use Rattle.std.specs.Prelude.{◌≡◌, ◌<◌, ◌≤◌, ◌^◌, ◌+◌, List, length, IfOk, ◌++◌, ◌∷◌};
ghost use Rattle.shape_tree.specs.Shapes.{items_of, shape_height, node_items, node_height};
ghost use Rattle.shape_tree.specs.Balance.{IsBalanced, IsBalancedNode};
ghost use Rattle.shape_tree.specs.Parts.{AreParts, AreNodeParts};
ghost use Rattle.shape_tree.specs.Turning.{IsTurnedNode, IsSettledNode};

use crate::kept::Kept;
use crate::opening::{Opened, close, open};
use crate::shape::{FreshNode, Shape};
use std::alloc::{AllocError, Global};

// The inner side of the node, which is no higher than the outer, comes beside the left side.
fn turn_right_once<T: Kept>(
    alloc: Global,
    left: Shape<T>,
    item: T::Item,
    node: FreshNode<T>,
) -> Result<FreshNode<T>, AllocError>
    requires left { IsBalanced T.height_of left }
    requires node { IsBalancedNode T.height_of node }
    requires two_higher { node_height T.height_of node ≡ shape_height T.height_of left + 2 }
    requires inner { shape_height T.height_of node.left ≤ shape_height T.height_of node.right }
    ensures items { IfOk result (λ n.
        node_items T.items n ≡ items_of T.items left ++ item ∷ node_items T.items node) }
    ensures turned { IfOk result (IsTurnedNode T.height_of left node) }
    ensures parts { IfOk result (λ n. (given : List T)
        → AreParts T.has_parts given left → AreNodeParts T.has_parts given node
        → AreNodeParts T.has_parts given n) }
{
    let right = node.left;
    let left = close(alloc, FreshNode { left, item, right })?;
    Ok(FreshNode {
        left,
        item: node.item,
        right: node.right,
    })
}

// The inner side of the node, which is higher than the outer, is taken apart: its item comes to
// the root.
fn turn_right_twice<T: Kept>(
    alloc: Global,
    left: Shape<T>,
    item: T::Item,
    node: FreshNode<T>,
) -> Result<FreshNode<T>, AllocError>
    requires left { IsBalanced T.height_of left }
    requires node { IsBalancedNode T.height_of node }
    requires two_higher { node_height T.height_of node ≡ shape_height T.height_of left + 2 }
    requires inner { shape_height T.height_of node.right < shape_height T.height_of node.left }
    ensures items { IfOk result (λ n.
        node_items T.items n ≡ items_of T.items left ++ item ∷ node_items T.items node) }
    ensures turned { IfOk result (IsTurnedNode T.height_of left node) }
    ensures parts { IfOk result (λ n. (given : List T)
        → AreParts T.has_parts given left → AreNodeParts T.has_parts given node
        → AreNodeParts T.has_parts given n) }
{
    let Opened::Node(middle) = open(node.left)? else {
        unreachable!()
    };
    let right = middle.left;
    Ok(FreshNode {
        left: close(alloc, FreshNode { left, item, right })?,
        item: middle.item,
        right: close(
            alloc,
            FreshNode {
                left: middle.right,
                item: node.item,
                right: node.right,
            },
        )?,
    })
}

/// The left side, the item and the node, as one node.
pub(crate) fn settle_right<T: Kept>(
    alloc: Global,
    left: Shape<T>,
    item: T::Item,
    node: FreshNode<T>,
) -> Result<FreshNode<T>, AllocError>
    requires left { IsBalanced T.height_of left }
    requires node { IsBalancedNode T.height_of node }
    requires not_low { shape_height T.height_of left ≤ node_height T.height_of node + 1 }
    requires not_high { node_height T.height_of node ≤ shape_height T.height_of left + 2 }
    requires fits { length (items_of T.items left) + length (node_items T.items node) < 2 ^ 31 }
    ensures items { IfOk result (λ n.
        node_items T.items n ≡ items_of T.items left ++ item ∷ node_items T.items node) }
    ensures settled { IfOk result (IsSettledNode T.height_of left node) }
    ensures parts { IfOk result (λ n. (given : List T)
        → AreParts T.has_parts given left → AreNodeParts T.has_parts given node
        → AreNodeParts T.has_parts given n) }
{
    let low = left.height();
    let inner = node.left.height();
    let outer = node.right.height();
    if inner.max(outer) <= low {
        let right = close(alloc, node)?;
        return Ok(FreshNode { left, item, right });
    }
    if inner <= outer {
        return Ok(turn_right_once(alloc, left, item, node)?);
    }
    Ok(turn_right_twice(alloc, left, item, node)?)
}

// The inner side of the node, which is no higher than the outer, comes beside the right side.
fn turn_left_once<T: Kept>(
    alloc: Global,
    node: FreshNode<T>,
    item: T::Item,
    right: Shape<T>,
) -> Result<FreshNode<T>, AllocError>
    requires right { IsBalanced T.height_of right }
    requires node { IsBalancedNode T.height_of node }
    requires two_higher { node_height T.height_of node ≡ shape_height T.height_of right + 2 }
    requires inner { shape_height T.height_of node.right ≤ shape_height T.height_of node.left }
    ensures items { IfOk result (λ n.
        node_items T.items n ≡ node_items T.items node ++ item ∷ items_of T.items right) }
    ensures turned { IfOk result (IsTurnedNode T.height_of right node) }
    ensures parts { IfOk result (λ n. (given : List T)
        → AreNodeParts T.has_parts given node → AreParts T.has_parts given right
        → AreNodeParts T.has_parts given n) }
{
    let left = node.right;
    let right = close(alloc, FreshNode { left, item, right })?;
    Ok(FreshNode {
        left: node.left,
        item: node.item,
        right,
    })
}

// The inner side of the node, which is higher than the outer, is taken apart: its item comes to
// the root.
fn turn_left_twice<T: Kept>(
    alloc: Global,
    node: FreshNode<T>,
    item: T::Item,
    right: Shape<T>,
) -> Result<FreshNode<T>, AllocError>
    requires right { IsBalanced T.height_of right }
    requires node { IsBalancedNode T.height_of node }
    requires two_higher { node_height T.height_of node ≡ shape_height T.height_of right + 2 }
    requires inner { shape_height T.height_of node.left < shape_height T.height_of node.right }
    ensures items { IfOk result (λ n.
        node_items T.items n ≡ node_items T.items node ++ item ∷ items_of T.items right) }
    ensures turned { IfOk result (IsTurnedNode T.height_of right node) }
    ensures parts { IfOk result (λ n. (given : List T)
        → AreNodeParts T.has_parts given node → AreParts T.has_parts given right
        → AreNodeParts T.has_parts given n) }
{
    let Opened::Node(middle) = open(node.right)? else {
        unreachable!()
    };
    let left = middle.right;
    Ok(FreshNode {
        left: close(
            alloc,
            FreshNode {
                left: node.left,
                item: node.item,
                right: middle.left,
            },
        )?,
        item: middle.item,
        right: close(alloc, FreshNode { left, item, right })?,
    })
}

/// The node, the item and the right side, as one node.
pub(crate) fn settle_left<T: Kept>(
    alloc: Global,
    node: FreshNode<T>,
    item: T::Item,
    right: Shape<T>,
) -> Result<FreshNode<T>, AllocError>
    requires right { IsBalanced T.height_of right }
    requires node { IsBalancedNode T.height_of node }
    requires not_low { shape_height T.height_of right ≤ node_height T.height_of node + 1 }
    requires not_high { node_height T.height_of node ≤ shape_height T.height_of right + 2 }
    requires fits { length (node_items T.items node) + length (items_of T.items right) < 2 ^ 31 }
    ensures items { IfOk result (λ n.
        node_items T.items n ≡ node_items T.items node ++ item ∷ items_of T.items right) }
    ensures settled { IfOk result (IsSettledNode T.height_of right node) }
    ensures parts { IfOk result (λ n. (given : List T)
        → AreNodeParts T.has_parts given node → AreParts T.has_parts given right
        → AreNodeParts T.has_parts given n) }
{
    let low = right.height();
    let outer = node.left.height();
    let inner = node.right.height();
    if inner.max(outer) <= low {
        let left = close(alloc, node)?;
        return Ok(FreshNode { left, item, right });
    }
    if outer >= inner {
        return Ok(turn_left_once(alloc, node, item, right)?);
    }
    Ok(turn_left_twice(alloc, node, item, right)?)
}
