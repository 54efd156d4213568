//! One item in the place of one. The shape stays as it is, and the path to the item alone is fresh.
ghost use Rattle.std.specs.Prelude.{◌≡◌, ◌<◌, ◌≤◌, ◌^◌, ◌+◌, List, length, IfOk};
ghost use Rattle.std.specs.Prelude.{◌∷◌, []};
ghost use Rattle.std.specs.List.{splice};
ghost use Rattle.shape_tree.specs.Shapes.{items_of, shape_height, fresh_nodes};
ghost use Rattle.shape_tree.specs.Balance.{IsBalanced};
ghost use Rattle.shape_tree.specs.Parts.{AreParts};

use crate::kept::Kept;
use crate::opening::{Opened, close, open};
use crate::shape::{FreshNode, Shape};
use std::alloc::{AllocError, Global};

/// The items of the whole, with this one in the place of the one at `at`.
pub fn replace<T: Kept>(
    alloc: Global,
    whole: Shape<T>,
    at: u32,
    item: T::Item,
) -> Result<Shape<T>, AllocError>
    requires balanced { IsBalanced T.height_of whole }
    requires fits { length (items_of T.items whole) < 2 ^ 31 }
    requires within { at < length (items_of T.items whole) }
    ensures items { IfOk result (λ s.
        items_of T.items s ≡ splice (items_of T.items whole) at (at + 1) (item ∷ [])) }
    ensures height { IfOk result (λ s.
        shape_height T.height_of s ≡ shape_height T.height_of whole) }
    ensures balanced { IfOk result (IsBalanced T.height_of) }
    ensures fresh { IfOk result (λ s.
        fresh_nodes s ≤ fresh_nodes whole + shape_height T.height_of whole) }
    ensures parts { IfOk result (λ s. (given : List T)
        → AreParts T.has_parts given whole → AreParts T.has_parts given s) }
{
    let Opened::Node(node) = open(whole)? else {
        unreachable!()
    };
    let FreshNode {
        left,
        item: old,
        right,
    } = node;
    let before = left.len();
    if at < before {
        let left = replace(alloc, left, at, item)?;
        let item = old;
        return Ok(close(alloc, FreshNode { left, item, right })?);
    }
    if at == before {
        return Ok(close(alloc, FreshNode { left, item, right })?);
    }
    let right = replace(alloc, right, at - before - 1, item)?;
    let item = old;
    Ok(close(alloc, FreshNode { left, item, right })?)
}
