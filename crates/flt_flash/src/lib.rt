//! A flash of two sectors that loses power and fails, the same flash in memory, and the contract between
//! the drivers of blocks and the layers above them.
//!
//! It depends on no other crate of this repository. Drivers over a flash use `Flash` and `Bench`, with the state
//! of `specs/State.antt`, which is to be read first; all layers above a driver use `Blocks`, with `specs/Blocks.antt`
//! and `specs/Calls.antt`. `FlashMem` keeps `Flash` and `Bench`, and says exactly where it fails (`specs/Power.antt`).
//! `Power`, `Boots` and the calls on pages are the parts of any device in memory.
#![tactic(auto)]

mod arm;
mod array;
mod blocks;
mod boot;
mod flash;
mod laws;
mod made;
mod memory;
mod pages;
mod power;
mod tally;
pub mod worked;

pub use arm::{Arm, ArmMade, Pattern};
pub use array::PageArray;
pub use blocks::{BlockFault, Blocks, Found, Refused, calls_follow};
pub use boot::{BootMark, Boots, PageChange};
pub use flash::{Bench, Flash, FlashFailed};
pub use laws::{counts_rise, erases_stand};
pub use made::ArmsTold;
pub use memory::FlashMem;
pub use pages::{BLANK_PAGE, outcome};
pub use power::Power;
pub use tally::Tally;
