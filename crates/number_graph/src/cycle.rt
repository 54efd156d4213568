//! Whether a number reaches itself.
ghost use Rattle.std.specs.Prelude.{◌<◌, ◌↔◌, ◌^◌, length, IsTrue, IfOk};
ghost use Rattle.number_graph.specs.Chains.{AreHeights, FindsLeastOnCycle};
ghost use Rattle.number_graph.specs.Graphs.{AreLinksWithin, IsOnCycle};

use crate::closure::reached_from_any;
use crate::links::Links;
use std::alloc::{AllocError, Global};

/// Whether the number reaches itself by one link or more. It is one search, from the numbers that
/// this one is linked to.
pub fn reaches_itself(alloc: Global, links: &Links, number: u16) -> Result<bool, AllocError>
    requires within { AreLinksWithin links.now }
    requires number { number < length links.now }
    ensures { IfOk result (λ answer. IsTrue answer ↔ IsOnCycle links.now number) }
{
    let flags = reached_from_any(alloc, links, links.from(number))?;
    Ok(flags[number as usize])
}

/// Whether the number reaches itself, where its height tells that it does not or tells nothing.
fn is_on_cycle(
    alloc: Global,
    links: &Links,
    heights: &[Option<u16>],
    number: u16,
) -> Result<bool, AllocError>
    requires within { AreLinksWithin links.now }
    requires heights { AreHeights links.now heights.now }
    requires number { number < length links.now }
    ensures { IfOk result (λ answer. IsTrue answer ↔ IsOnCycle links.now number) }
{
    match heights[number as usize] {
        Some(_) => Ok(false),
        None => reaches_itself(alloc, links, number),
    }
}

/// The least number that reaches itself, and `None` where none does. It searches from each number
/// whose height is not told, up to that one, and so from none where all heights are told.
pub fn least_on_cycle(
    alloc: Global,
    links: &Links,
    heights: &[Option<u16>],
) -> Result<Option<u16>, AllocError>
    requires within { AreLinksWithin links.now }
    requires few { length links.now < 2 ^ 16 }
    requires heights { AreHeights links.now heights.now }
    ensures { IfOk result (FindsLeastOnCycle links.now) }
{
    for number in 0..links.count() as u16 {
        if is_on_cycle(alloc, links, heights, number)? {
            return Ok(Some(number));
        }
    }
    Ok(None)
}
