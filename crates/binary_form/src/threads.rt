//! That binary forms may cross threads.
ghost use Rattle.std.specs.Thread.{IsSend, IsSync};
ghost use Rattle.binary_form.specs.contracts.form.Binary.{the_row};

use crate::Binary;
use cell_sets::Cell;

/// What may go to another thread, and be shared by threads.
fn crosses_threads<T: Send + Sync>()
    ensures send { IsSend T.row }
    ensures sync { IsSync T.row }
{}

/// A binary form may go to another thread, and threads may share one.
pub fn binary_forms_cross_threads<C: Cell>()
    ensures send { IsSend
        (the_row C.row (record { symbols = C.symbols }) (record { ROOM = C.ROOM })) }
    ensures sync { IsSync
        (the_row C.row (record { symbols = C.symbols }) (record { ROOM = C.ROOM })) }
{
    crosses_threads::<Binary<C>>();
}
