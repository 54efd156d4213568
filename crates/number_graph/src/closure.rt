//! What a number reaches by links.
ghost use Rattle.std.specs.Prelude.{ℕ, ◌<◌, ◌∷◌, [], length, Contains, IfOk, OnOk};
ghost use Rattle.number_graph.specs.Graphs.{AreFlagsFromAny, AreLinksWithin, AreReached};
ghost use Rattle.number_graph.specs.Flags.{FlagsOne, SetsFlags, HasFound};

use crate::links::Links;
use std::alloc::{AllocError, Global};

/// Flags the number, which then waits to be looked at, unless it has its flag.
pub(crate) fn flag(
    target: u16,
    flags: &mut Vec<bool>,
    waiting: &mut Vec<u16>,
) -> Result<(), AllocError>
    requires { target < length flags.old.items }
    ensures sets { OnOk result (SetsFlags (target ∷ [])
        flags.old.items flags.new.items waiting.old.items waiting.new.items) }
    ensures one { OnOk result (FlagsOne target
        flags.old.items flags.new.items waiting.old.items waiting.new.items) }
{
    if flags[target as usize] {
        return Ok(());
    }
    flags[target as usize] = true;
    waiting.push(target)?;
    Ok(())
}

fn flag_all(
    targets: &[u16],
    flags: &mut Vec<bool>,
    waiting: &mut Vec<u16>,
) -> Result<(), AllocError>
    requires { (n : ℕ) → Contains targets.now n → n < length flags.old.items }
    ensures { OnOk result (SetsFlags targets.now
        flags.old.items flags.new.items waiting.old.items waiting.new.items) }
{
    for target in targets {
        flag(*target, flags, waiting)?;
    }
    Ok(())
}

/// What a search found.
#[derive(Drop)]
struct Found {
    /// For each number, whether it is reached.
    flags: Vec<bool>,
    /// The numbers that are reached, in the order in which they were looked at.
    numbers: Vec<u16>,
}

/// Searches from these numbers, which themselves count as reached. It looks at each number that is
/// reached, and at each of its links, once.
fn search(alloc: Global, links: &Links, starts: &[u16]) -> Result<Found, AllocError>
    requires starts { (n : ℕ) → Contains starts.now n → n < length links.now }
    requires within { AreLinksWithin links.now }
    ensures { IfOk result (λ found.
        HasFound links.now starts.now found.flags.items found.numbers.items) }
{
    let mut flags = vec![in alloc; false; links.count()]?;
    let mut waiting = Vec::new(alloc);
    let mut numbers = Vec::new(alloc);
    flag_all(starts, &mut flags, &mut waiting)?;
    while let Some(number) = waiting.pop() {
        numbers.push(number)?;
        flag_all(links.from(number), &mut flags, &mut waiting)?;
    }
    Ok(Found { flags, numbers })
}

/// For each number, whether links lead to it from one of these, which themselves count as reached.
/// It looks at each number that is reached, and at each of its links, once.
pub fn reached_from_any(
    alloc: Global,
    links: &Links,
    starts: &[u16],
) -> Result<Vec<bool>, AllocError>
    requires starts { (n : ℕ) → Contains starts.now n → n < length links.now }
    requires within { AreLinksWithin links.now }
    ensures { IfOk result (λ flags. AreFlagsFromAny links.now starts.now flags.items) }
{
    let found = search(alloc, links, starts)?;
    Ok(found.flags)
}

/// The numbers to which links lead from this one, which itself counts as reached, each of them
/// once. It looks at each of them, and at each of its links, once, and sorts them.
pub fn reached_from(alloc: Global, links: &Links, from: u16) -> Result<Vec<u16>, AllocError>
    requires from { from < length links.now }
    requires within { AreLinksWithin links.now }
    ensures { IfOk result (λ numbers. AreReached links.now from numbers.items) }
{
    let mut numbers = search(alloc, links, &[from])?.numbers;
    numbers.sort_unstable();
    Ok(numbers)
}
