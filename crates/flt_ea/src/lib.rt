//! An EEPROM of units of 32 bytes that loses power and fails, the same device in memory, and the driver of blocks over it, with the gates
//! of its places.
//!
//! It depends on `flt_flash`, by the state of a flash of one sector (`specs/State.antt`), and on `flt_code` and `flt_pages`
//! for code words, block numbers and plain bytes. The layer above uses `Blocks` of `Ea`. Read `specs/Image.antt` first: what the units
//! hold.
#![tactic(auto)]

mod ea;
mod eeprom;
mod gate;
mod memory;
mod place;
mod record;
mod scan;
pub mod worked;

pub use ea::Ea;
pub use eeprom::Eeprom;
pub use gate::{Gate, get_gate, put_gate};
pub use memory::EepromMem;
pub use place::{Held, judge};
