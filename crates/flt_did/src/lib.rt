//! Data identifiers (DIDs): stored functions of the eight signals of the vehicle, and the frames that
//! they give. It depends on `flt_model`, whose `specs/Frame` defines frames. The layer above uses
//! `DidTable::frame`: for any table that was filled row by row, the frame of a list of uses is the
//! specified one. The programs use one table, which `program_table!` makes. Read `specs/Table` first.
#![tactic(auto)]

mod keyed;
mod program;
mod readers;
mod row;
mod signals;
mod table;

pub use keyed::{Keyed, find_row};
pub use readers::{did_0101, did_0102, did_0103, did_0104, did_0105, did_0106, did_0107};
pub use row::{Reader, Row};
pub use signals::Signals;
pub use table::{DidTable, TableFault};

/// The rows of the program's table of data identifiers.
pub const DID_ROWS: usize = 16;
