//! A shape cut in two, and two shapes put together.
ghost use Rattle.std.specs.Prelude.{◌≡◌, ◌<◌, ◌≤◌, ◌^◌, ◌+◌, ◌*◌, List, length, IfOk, MatchOption};
ghost use Rattle.std.specs.Prelude.{◌++◌, ◌∷◌, [], max};
ghost use Rattle.shape_tree.specs.Shapes.{items_of, shape_height, fresh_nodes};
ghost use Rattle.shape_tree.specs.Balance.{IsBalanced};
ghost use Rattle.shape_tree.specs.Parts.{AreParts};

use crate::joining::join;
use crate::kept::{Kept, Share};
use crate::opening::{Opened, open};
use crate::shape::Shape;
use std::alloc::{AllocError, Global};

/// The first so many items, and the rest. Neither is higher than the whole.
pub fn split<T: Kept>(
    alloc: Global,
    whole: Shape<T>,
    at: u32,
) -> Result<(Shape<T>, Shape<T>), AllocError>
    requires balanced { IsBalanced T.height_of whole }
    requires fits { length (items_of T.items whole) < 2 ^ 31 }
    requires within { at ≤ length (items_of T.items whole) }
    ensures items { IfOk result (λ p.
        items_of T.items whole ≡ items_of T.items p.0 ++ items_of T.items p.1) }
    ensures len { IfOk result (λ p. length (items_of T.items p.0) ≡ at) }
    ensures balanced { IfOk result (λ p. IsBalanced T.height_of p.0 × IsBalanced T.height_of p.1) }
    ensures not_higher { IfOk result (λ p.
        (shape_height T.height_of p.0 ≤ shape_height T.height_of whole)
        × (shape_height T.height_of p.1 ≤ shape_height T.height_of whole)) }
    ensures fresh { IfOk result (λ p.
        fresh_nodes p.0 + fresh_nodes p.1
        ≤ fresh_nodes whole + shape_height T.height_of p.0 + shape_height T.height_of p.1
        + 3 * shape_height T.height_of whole) }
    ensures parts { IfOk result (λ p. (given : List T)
        → AreParts T.has_parts given whole
        → AreParts T.has_parts given p.0 × AreParts T.has_parts given p.1) }
{
    match open(whole)? {
        Opened::Leaf(tree) => Ok((Shape::Kept(tree.share()?), Shape::Kept(tree))),
        Opened::Node(node) => {
            let before = node.left.len();
            if at <= before {
                let (first, second) = split(alloc, node.left, at)?;
                let rest = join(alloc, second, node.item, node.right)?;
                return Ok((first, rest));
            }
            let (first, second) = split(alloc, node.right, at - before - 1)?;
            let front = join(alloc, node.left, node.item, first)?;
            Ok((front, second))
        }
    }
}

// The first item, and the rest. None exactly where there is no item.
fn take_first<T: Kept>(
    alloc: Global,
    whole: Shape<T>,
) -> Result<Option<(T::Item, Shape<T>)>, AllocError>
    requires balanced { IsBalanced T.height_of whole }
    requires fits { length (items_of T.items whole) < 2 ^ 31 }
    ensures items { IfOk result (λ o. MatchOption o
        (items_of T.items whole ≡ [])
        (λ p. items_of T.items whole ≡ p.0 ∷ items_of T.items p.1)) }
    ensures balanced { IfOk result (λ o. MatchOption o
        (Unit {0})
        (λ p. IsBalanced T.height_of p.1)) }
    ensures not_higher { IfOk result (λ o. MatchOption o
        (Unit {0})
        (λ p. shape_height T.height_of p.1 ≤ shape_height T.height_of whole)) }
    ensures fresh { IfOk result (λ o. MatchOption o
        (Unit {0})
        (λ p. fresh_nodes p.1
        ≤ fresh_nodes whole + shape_height T.height_of p.1
        + 3 * shape_height T.height_of whole)) }
    ensures parts { IfOk result (λ o. MatchOption o
        (Unit {0})
        (λ p. (given : List T)
        → AreParts T.has_parts given whole → AreParts T.has_parts given p.1)) }
{
    match open(whole)? {
        Opened::Leaf(_) => Ok(None),
        Opened::Node(node) => match take_first(alloc, node.left)? {
            None => Ok(Some((node.item, node.right))),
            Some((item, left)) => {
                let rest = join(alloc, left, node.item, node.right)?;
                Ok(Some((item, rest)))
            }
        },
    }
}

/// The items of both, in order. A leaf is at hand where a tree without items is to be made; no
/// such tree is needed here.
pub fn concat<T: Kept>(
    alloc: Global,
    _leaf: &T,
    left: Shape<T>,
    right: Shape<T>,
) -> Result<Shape<T>, AllocError>
    requires left { IsBalanced T.height_of left }
    requires right { IsBalanced T.height_of right }
    requires fits { length (items_of T.items left) + length (items_of T.items right) < 2 ^ 31 }
    ensures items { IfOk result (λ s.
        items_of T.items s ≡ items_of T.items left ++ items_of T.items right) }
    ensures balanced { IfOk result (IsBalanced T.height_of) }
    ensures not_higher { IfOk result (λ s.
        shape_height T.height_of s
        ≤ max (shape_height T.height_of left) (shape_height T.height_of right) + 1) }
    ensures fresh { IfOk result (λ s.
        fresh_nodes s
        ≤ fresh_nodes left + fresh_nodes right
        + 5 * max (shape_height T.height_of left) (shape_height T.height_of right) + 2) }
    ensures parts { IfOk result (λ s. (given : List T)
        → AreParts T.has_parts given left → AreParts T.has_parts given right
        → AreParts T.has_parts given s) }
{
    match take_first(alloc, right)? {
        None => Ok(left),
        Some((item, rest)) => {
            let whole = join(alloc, left, item, rest)?;
            Ok(whole)
        }
    }
}
