// The mode N channel plan and the list of a band (EN 13757-4:2019, 10.2, Table 21; document 01, "Mode N channels").

#![tactic(auto)]

mod table21; // table21.rt: the table's rows
mod plan; // plan.rt: the row and the centre of an index and channel
mod listing; // listing.rt: the lines of a band

pub use listing::{Band, Line, Rows, band_of, line_at, lines_of, rows_of};
pub use plan::{Row, centre_of, channels_of, row_at};
