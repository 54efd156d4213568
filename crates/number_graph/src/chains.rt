//! Heights: how long the longest chain of links from a number is.
ghost use Rattle.std.specs.Prelude.{ℕ, ◌+◌, ◌<◌, ◌^◌, Contains, IfOk, IfSome, length};
ghost use Rattle.number_graph.specs.Chains.{AreHeights};
ghost use Rattle.number_graph.specs.Graphs.{AreLinksWithin};
ghost use Rattle.number_graph.specs.HeightSteps.{AreHeightsUpTo, AreNumbersBelow};
ghost use Rattle.number_graph.specs.HeightSteps.{IsHeightAbove, IsHeightWith, IsLinkOrder, IsTold};

use crate::derivation::derivation;
use crate::links::Links;
use std::alloc::{AllocError, Global};

/// The numbers below this one, in rising order.
fn numbers_below(alloc: Global, total: u16) -> Result<Vec<u16>, AllocError>
    ensures { IfOk result (λ numbers. AreNumbersBelow total numbers.items) }
{
    let mut numbers = Vec::with_capacity(alloc, total as usize)?;
    for number in 0..total {
        numbers.push(number)?;
    }
    Ok(numbers)
}

/// The height above one target more, where this is the height above the others.
fn height_with(height: u16, target: Option<u16>) -> u16
    requires { IfSome target (λ below. below + 1 < 2 ^ 16) }
    ensures { IsHeightWith height target result }
{
    match target {
        Some(below) => height.max(below + 1),
        None => height,
    }
}

/// One more than the greatest of the targets' heights, or 0 where there is no target.
fn height_above(targets: &[u16], heights: &[Option<u16>]) -> u16
    requires within { (t : ℕ) → Contains targets.now t → t < length heights.now }
    requires few { (t h : ℕ) → IsTold heights.now t h → h + 1 < 2 ^ 16 }
    ensures { IsHeightAbove targets.now heights.now result }
{
    let mut height = 0;
    for target in targets {
        height = height_with(height, heights[*target as usize]);
    }
    height
}

/// The heights of the numbers of the order, each of which is linked to numbers before it alone.
fn heights_along(
    alloc: Global,
    links: &Links,
    order: &[u16],
) -> Result<Vec<Option<u16>>, AllocError>
    requires within { AreLinksWithin links.now }
    requires numbers { (n : ℕ) → Contains order.now n → n < length links.now }
    requires few { length order.now < 2 ^ 16 }
    requires order { IsLinkOrder links.now order.now }
    ensures { IfOk result (λ heights.
        AreHeightsUpTo links.now order.now (length order.now) heights.items) }
{
    let mut heights = vec![in alloc; None; links.count()]?;
    for number in order {
        let height = height_above(links.from(*number), heights.as_slice());
        heights[*number as usize] = Some(height);
    }
    Ok(heights)
}

/// For each number its height, or `None` where links lead from it to a number that reaches itself.
/// It finds numbers one after the other, each behind those that it is linked to, and looks at each
/// link at most three times.
pub fn heights(alloc: Global, links: &Links) -> Result<Vec<Option<u16>>, AllocError>
    requires within { AreLinksWithin links.now }
    requires few { length links.now < 2 ^ 16 }
    ensures { IfOk result (λ heights. AreHeights links.now heights.items) }
{
    let numbers = numbers_below(alloc, links.count() as u16)?;
    let found = derivation(alloc, links.count(), links, numbers.as_slice())?;
    heights_along(alloc, links, found.order.as_slice())
}
