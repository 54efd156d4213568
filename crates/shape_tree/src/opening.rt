//! The root of a shape taken apart, and put on. All other calls match on no shape.
ghost use Rattle.std.specs.Prelude.{◌≡◌, ◌+◌, List, IfOk};
ghost use Rattle.shape_tree.specs.Shapes.{items_of, shape_height, fresh_nodes};
ghost use Rattle.shape_tree.specs.Shapes.{node_items, node_height, fresh_below};
ghost use Rattle.shape_tree.specs.Balance.{IsBalanced, IsBalancedNode};
ghost use Rattle.shape_tree.specs.Parts.{AreParts, AreNodeParts};
ghost use Rattle.shape_tree.specs.Openings.{OpensTo, AreOpenedParts};

use crate::kept::Kept;
use crate::shape::{FreshNode, Shape};
use std::alloc::{AllocError, Global};

/// What stands at the root of a shape.
#[derive(Drop)]
pub(crate) enum Opened<T: Kept> {
    Leaf(T),
    Node(FreshNode<T>),
}

pub(crate) fn open<T: Kept>(shape: Shape<T>) -> Result<Opened<T>, AllocError>
    requires balanced { IsBalanced T.height_of shape }
    ensures ok { IfOk result (OpensTo T.items T.height_of shape) }
    ensures parts { IfOk result (λ o. (given : List T)
        → AreParts T.has_parts given shape → AreOpenedParts T.has_parts given o) }
{
    match shape {
        Shape::Fresh(node) => Ok(Opened::Node(Box::into_inner(node))),
        Shape::Kept(tree) => match tree.parts()? {
            None => Ok(Opened::Leaf(tree)),
            Some((left, item, right)) => Ok(Opened::Node(FreshNode {
                left: Shape::Kept(left),
                item,
                right: Shape::Kept(right),
            })),
        },
    }
}

pub(crate) fn close<T: Kept>(alloc: Global, node: FreshNode<T>) -> Result<Shape<T>, AllocError>
    requires balanced { IsBalancedNode T.height_of node }
    ensures items { IfOk result (λ s. items_of T.items s ≡ node_items T.items node) }
    ensures height { IfOk result (λ s.
        shape_height T.height_of s ≡ node_height T.height_of node) }
    ensures balanced { IfOk result (IsBalanced T.height_of) }
    ensures fresh { IfOk result (λ s. fresh_nodes s ≡ fresh_below node + 1) }
    ensures parts { IfOk result (λ s. (given : List T)
        → AreNodeParts T.has_parts given node → AreParts T.has_parts given s) }
{
    Ok(Shape::Fresh(Box::new(alloc, node)?))
}
