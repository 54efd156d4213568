//! The union of two lists in rising order.
ghost use Rattle.std.specs.Prelude.{IfOk};
ghost use Rattle.cell_sets.specs.Cells.{IsRising, IsUnion};

use std::alloc::{AllocError, Global};
use std::cmp::Ordering;

/// The symbols of both lists, each once. It takes time in proportion to the two lengths, and memory
/// once.
pub(crate) fn merged(alloc: Global, left: &[u16], right: &[u16]) -> Result<Vec<u16>, AllocError>
    requires left { IsRising left.now }
    requires right { IsRising right.now }
    ensures ok { IfOk result (λ both. IsUnion left.now right.now both.items) }
    ensures rising { IfOk result (λ both. IsRising both.items) }
{
    let mut both = Vec::with_capacity(alloc, left.len() + right.len())?;
    let mut i = 0;
    let mut j = 0;
    while i < left.len() && j < right.len() {
        match left[i].cmp(&right[j]) {
            Ordering::Less => {
                both.push(left[i])?;
                i += 1;
            }
            Ordering::Equal => {
                both.push(left[i])?;
                i += 1;
                j += 1;
            }
            Ordering::Greater => {
                both.push(right[j])?;
                j += 1;
            }
        }
    }
    both.extend_from_slice(&left[i..])?;
    both.extend_from_slice(&right[j..])?;
    Ok(both)
}
