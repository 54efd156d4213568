//! The check for cycles: whether a category reaches itself, and the ranks where none does.
ghost use Rattle.std.specs.Prelude.{◌≡◌, IfOk, map, unwrap_or};
ghost use Rattle.numbered_grammar.specs.Nullable.{AreNullableFlags};
ghost use Rattle.numbered_grammar.specs.Ranks.{TellsCycles};

use crate::parts::GrammarParts;
use crate::stepping::category_steps;
use number_graph::{heights, least_on_cycle};
use std::alloc::{AllocError, Global};

/// What the check for cycles tells.
#[derive(Drop)]
pub(crate) enum CycleCheck {
    /// Some category reaches itself: the least number of such a category.
    Cyclic(u16),
    /// None does: the rank of each category, by number.
    Ranked(Vec<u16>),
}

/// The heights, with 0 for one that is not told.
fn told_heights(alloc: Global, heights: &[Option<u16>]) -> Result<Vec<u16>, AllocError>
    ensures { IfOk result (λ told. told.items ≡ map (λ h. unwrap_or h 0) heights.now) }
{
    heights
        .iter()
        .map(|height| height.unwrap_or(0))
        .collect(alloc)
}

/// The least category that reaches itself, or the rank of each category, which is its height by
/// the steps. It looks at each step at most three times; where some category reaches itself, it
/// also searches from each category that leads to such a one, up to the first that is one.
pub(crate) fn check_cycles(
    alloc: Global,
    parts: &GrammarParts,
    nullable: &[bool],
) -> Result<CycleCheck, AllocError>
    requires { AreNullableFlags parts.now nullable.now }
    ensures { IfOk result (TellsCycles parts.now) }
{
    let steps = category_steps(alloc, parts, nullable)?;
    let heights = heights(alloc, &steps)?;
    match least_on_cycle(alloc, &steps, heights.as_slice())? {
        Some(category) => Ok(CycleCheck::Cyclic(category)),
        None => Ok(CycleCheck::Ranked(told_heights(alloc, heights.as_slice())?)),
    }
}
