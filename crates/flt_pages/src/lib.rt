//! The pages of a flash of two sectors: gates, the items of a log, records, and the two sectors; looks at them, and programs of them.
//!
//! It depends on `flt_flash`, `flt_code` and the definitions of `flt_sector_model`, and keeps nothing from call to call: the driver above
//! uses its calls over any flash. `gates`, `item`, `blank_from`, `find_places` and `current_sector` report exactly what the definitions
//! say of the image (`specs/Told.antt`). `begin`, the appends of pages and `activate` leave the page that was asked for or, after a
//! failure, a tearing of it (`specs/Append.antt`, to be read first), and `append_record` leaves the record whole or, after a failure,
//! one of the forms that no reader accepts as a record (`specs/Record.antt`). `switch_sectors` copies all that the blocks hold to
//! the other sector, and whatever fails the image gives each block what it held (`specs/Switch.antt`).
//! `CurrentSector` is a sector with its used pages and its number, whose ranges are facts of the type.
#![tactic(auto)]

mod append;
mod bytes;
mod current;
mod fault;
mod gate_pages;
mod items;
mod law;
mod live;
mod numbers;
mod place;
mod record;
mod sectors;

pub use append::{activate, append_gate, append_head, append_piece, begin, fill_up};
pub use bytes::{copy_record, read_record};
pub use current::CurrentSector;
pub use fault::PageFault;
pub use flt_sector_model::Item;
pub use gate_pages::gates;
pub use items::{blank_from, byte_pages, item};
pub use law::appending;
pub use live::live_pages;
pub use numbers::Numbers;
pub use place::{RecordPlace, find_places, forget, note, place_of};
pub use record::append_record;
pub use sectors::{current_sector, set_up_flash, switch_sectors};
