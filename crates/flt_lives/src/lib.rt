//! Lives: each begins with a power-up and a start-up, and then an engine makes its steps. `Plain` makes those of lane 0 without a
//! lock; the engine of lanes under the lock is in a crate above.
//!
//! It depends on `flt_store` for the image, on `flt_dcm` for the machine, and on `flt_life_model`, whose definitions its clauses cite.
//! The layer above calls `run_on_device` with a `Driver`, over a flash or over an EEPROM; `run_lives` and `run_life` are the same over any
//! driver of blocks. Memory is taken before the first step of a life, and in none of its steps. For a layer that makes the steps
//! itself, `drain` writes the jobs of a queue that has no lock, `get` reads an application block, and `make_step` makes the other steps,
//! as those of a run are made. Read `Played`, `Chain` and `Lives` of `flt_life_model` first, then `specs/Devices.antt`.
#![tactic(auto)]

mod account;
mod buffers;
mod calls;
mod dark;
mod device;
mod draining;
mod driver;
mod engine;
mod lives;
mod plain;
mod reading;
mod step;

pub use buffers::Buffers;
pub use calls::{CallJournal, NoJournal};
pub use device::{Run, run_alone, run_on_device};
pub use draining::drain;
pub use driver::Driver;
pub use engine::{Engine, Lived};
pub use lives::{run_life, run_lives};
pub use plain::Plain;
pub use reading::get;
pub use step::make_step;
