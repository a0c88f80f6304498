ghost use Rattle.std.specs.Prelude.{◌≡◌};

use edge_files::{Reason, RowFault, RowStop};

/// The refusal of a file by the reason of a row. Row 0 is the header.
pub fn fault(row: u32, reason: Reason) -> RowStop
    ensures { result ≡ RowStop.Fault (record { row = row; reason = reason }) }
{
    RowStop::Fault(RowFault { row, reason })
}
