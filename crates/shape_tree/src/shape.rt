//! Shapes: trees of kept trees and of nodes that are still to be made.
ghost use Rattle.std.specs.Prelude.{◌≡◌, ◌<◌, ◌≤◌, ◌^◌, length};
ghost use Rattle.shape_tree.specs.Shapes.{items_of, shape_height, fresh_nodes};

use crate::kept::Kept;

/// A kept tree, or a fresh node above two shapes.
#[cycle(shape)]
#[derive(Drop)]
pub enum Shape<T: Kept> {
    Kept(T),
    Fresh(Box<FreshNode<T>>),
}

/// A node that is still to be made.
#[cycle(shape)]
#[derive(Drop)]
pub struct FreshNode<T: Kept> {
    pub left: Shape<T>,
    pub item: T::Item,
    pub right: Shape<T>,
}

impl<T: Kept> Shape<T> {
    /// How many items the shape has.
    pub fn len(&self) -> u32
        requires fits { length (items_of T.items self.now) < 2 ^ 31 }
        ensures { result ≡ length (items_of T.items self.now) }
    {
        match self {
            Shape::Kept(tree) => tree.len(),
            Shape::Fresh(node) => node.left.len() + 1 + node.right.len(),
        }
    }

    /// The height. It looks at each fresh node.
    pub fn height(&self) -> u32
        requires fits { length (items_of T.items self.now) < 2 ^ 31 }
        ensures height { result ≡ shape_height T.height_of self.now }
        ensures at_most { shape_height T.height_of self.now ≤ length (items_of T.items self.now) }
    {
        match self {
            Shape::Kept(tree) => tree.height(),
            Shape::Fresh(node) => node.left.height().max(node.right.height()) + 1,
        }
    }

    /// How many nodes are fresh.
    pub fn fresh(&self) -> u32
        requires fits { length (items_of T.items self.now) < 2 ^ 31 }
        ensures fresh { result ≡ fresh_nodes self.now }
        ensures at_most { fresh_nodes self.now ≤ length (items_of T.items self.now) }
    {
        match self {
            Shape::Kept(_) => 0,
            Shape::Fresh(node) => node.left.fresh() + 1 + node.right.fresh(),
        }
    }
}
