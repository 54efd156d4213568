//! That texts may cross threads.
ghost use Rattle.std.specs.Thread.{IsSend, IsSync};
ghost use Rattle.text_store.specs.contracts.text.Text.{the_row};

use crate::Text;

/// What may go to another thread, and be shared by threads.
fn crosses_threads<T: Send + Sync>()
    ensures send { IsSend T.row }
    ensures sync { IsSync T.row }
{}

/// A text may go to another thread, and threads may share one.
pub fn texts_cross_threads()
    ensures send { IsSend the_row }
    ensures sync { IsSync the_row }
{
    crosses_threads::<Text>();
}
