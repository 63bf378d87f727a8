//! A flash, and an EEPROM, that a file keeps: what a program, an erase or a write of a unit answered `Ok` for is in the file, and synced,
//! before it answers.
//!
//! It depends on `flt_flash`, of whose `Flash` and `Bench` `FlashFile` keeps each clause, and on `flt_ea`, of whose `Eeprom` `EepromFile`
//! does. Both are over any `ByteStore`; `FileBytes` is one over a file of std, and `MemBytes` one in memory that fails where asked to.
//! The layer above opens a file by `open_flash` or `open_eeprom`, and puts a driver of blocks over the device. Read `specs/Bytes.antt`
//! first (what a write leaves), then `specs/Layout.antt` (where the pages are) and `specs/Kept.antt`.
#![tactic(auto)]

mod bytes;
mod eeprom;
mod file;
mod flash;
mod kept;
mod memory;
mod opening;
mod stage;

pub use bytes::{ByteStore, LoadFault, StoreFault};
pub use eeprom::EepromFile;
pub use file::FileBytes;
pub use flash::FlashFile;
pub use memory::MemBytes;
pub use opening::{OpenFault, open_eeprom, open_flash};
