//! What two lists in rising order have in common.
ghost use Rattle.std.specs.Prelude.{◌↔◌, IsTrue, IfOk};
ghost use Rattle.cell_sets.specs.Cells.{IsRising, Meet, IsCommon, HaveSame};

use crate::places::has_in;
use std::alloc::{AllocError, Global};

/// Whether some symbol is in both lists.
pub(crate) fn have_common(left: &[u16], right: &[u16]) -> bool
    requires { IsRising right.now }
    ensures { IsTrue result ↔ Meet left.now right.now }
{
    for i in 0..left.len() {
        if has_in(right, left[i]) {
            return true;
        }
    }
    false
}

/// The symbols that are in both lists.
pub(crate) fn common_of(alloc: Global, left: &[u16], right: &[u16]) -> Result<Vec<u16>, AllocError>
    requires left { IsRising left.now }
    requires right { IsRising right.now }
    ensures ok { IfOk result (λ common. IsCommon left.now right.now common.items) }
    ensures rising { IfOk result (λ common. IsRising common.items) }
{
    let mut common = Vec::new(alloc);
    for i in 0..left.len() {
        if has_in(right, left[i]) {
            common.push(left[i])?;
        }
    }
    Ok(common)
}

/// Whether both lists have the same symbols.
pub(crate) fn are_same(left: &[u16], right: &[u16]) -> bool
    requires left { IsRising left.now }
    requires right { IsRising right.now }
    ensures { IsTrue result ↔ HaveSame left.now right.now }
{
    left == right
}
