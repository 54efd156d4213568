//! Makers of kept trees, and how a shape becomes one: each fresh node is made once, and no other.
ghost use Rattle.std.specs.Prelude.{◌≡◌, ℕ, ◌<◌, ◌≤◌, ◌^◌, ◌+◌, ◌↔◌, length, IfOk};
ghost use Rattle.std.specs.List.{All};
ghost use Rattle.shape_tree.specs.Shapes.{items_of, shape_height, fresh_nodes};
ghost use Rattle.shape_tree.specs.Balance.{AreNear, IsLeaf, IsNodeOf, IsBalanced};
ghost use Rattle.shape_tree.specs.Parts.{AllKept};

use crate::kept::Kept;
use crate::shape::Shape;
use std::alloc::AllocError;

/// What makes the nodes of kept trees.
pub trait Maker<T: Kept> {
    /// How many nodes it made.
    ghost made: { Self → ℕ };

    /// Which trees are sound to it. This never changes.
    ghost is_sound: { Self → T → Type 0 };

    /// Which items it takes. This never changes.
    ghost takes: { Self → T.Item → Type 0 };

    /// What it holds by reference, which stays.
    ghost held: { Self → ℕ };

    /// A sound leaf.
    fn leaf(&mut self) -> T
        ensures leaf { IsLeaf T.items T.height_of result }
        ensures sound { is_sound self.new result }
        ensures made { made self.new ≡ made self.old }
        ensures same_sound { (t : T) → is_sound self.old t ↔ is_sound self.new t }
        ensures same_items { (i : T.Item) → takes self.old i ↔ takes self.new i }
        ensures held { held self.new ≡ held self.old };

    /// A sound node of these.
    fn node(&mut self, left: T, item: T::Item, right: T) -> Result<T, AllocError>
        requires left { is_sound self.old left }
        requires item { takes self.old item }
        requires right { is_sound self.old right }
        requires near { AreNear (T.height_of left) (T.height_of right) }
        requires fits { length (T.items left) + length (T.items right) < 2 ^ 31 }
        ensures ok { IfOk result (λ t. IsNodeOf T.items T.height_of t left item right) }
        ensures sound { IfOk result (is_sound self.new) }
        ensures made { made self.new ≤ made self.old + 1 }
        ensures same_sound { (t : T) → is_sound self.old t ↔ is_sound self.new t }
        ensures same_items { (i : T.Item) → takes self.old i ↔ takes self.new i }
        ensures held { held self.new ≡ held self.old };
}

/// A kept tree of the shape's items, in which each fresh node is made.
#[tactic(auto, using(crate::proofs::PartLemmas::kept_still))]
pub fn realise<T: Kept, M: Maker<T>>(shape: Shape<T>, maker: &mut M) -> Result<T, AllocError>
    requires balanced { IsBalanced T.height_of shape }
    requires fits { length (items_of T.items shape) < 2 ^ 31 }
    requires sound { AllKept (M.is_sound maker.old) shape }
    requires takes { All (M.takes maker.old) (items_of T.items shape) }
    ensures items { IfOk result (λ t. T.items t ≡ items_of T.items shape) }
    ensures height { IfOk result (λ t. T.height_of t ≡ shape_height T.height_of shape) }
    ensures sound { IfOk result (M.is_sound maker.new) }
    ensures made { M.made maker.new ≤ M.made maker.old + fresh_nodes shape }
    ensures same_sound { (t : T) → M.is_sound maker.old t ↔ M.is_sound maker.new t }
    ensures same_items { (i : T.Item) → M.takes maker.old i ↔ M.takes maker.new i }
    ensures held { M.held maker.new ≡ M.held maker.old }
{
    match shape {
        Shape::Kept(tree) => Ok(tree),
        Shape::Fresh(node) => {
            let node = Box::into_inner(node);
            let left = realise(node.left, maker)?;
            let right = realise(node.right, maker)?;
            let whole = maker.node(left, node.item, right)?;
            Ok(whole)
        }
    }
}
