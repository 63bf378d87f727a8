//! The configuration of a fault memory, and the durable state that it saves.
//!
//! It depends on no other crate of this repository. The layers above get a `ValidConfig` from `check`. Its type guarantees
//! that every number is in its range, that DTCs are distinct, and that the records have room. The numbers of testers, enable
//! conditions, signals, operation cycles and application blocks have types with a limit, such as `Tester` (`below.rt`).
//! Read `specs/Validity` first, then `specs/Check` (what is refused first) and `specs/Durable`.
#![tactic(auto)]

mod below;
mod config;
mod durable;
pub mod laws;
mod persist;
mod ranges;
mod setting;
mod valid_config;
pub mod worked;

pub use below::{ApplicationBlock, Below, Condition, OperationCycle, SignalIndex, Tester, kind};
pub use config::{CfgFault, Config, Debounce, DidUse, EventCfg, Field};
pub use durable::{are_states_of, fits, initial, is_entry_of, is_noted, place_of, put_initial};
pub use persist::{EntryState, EventState, Frame, Persist, UNTESTED};
pub use valid_config::{ValidConfig, check, needed_pages, verdict};

/// The most events of a configuration.
pub const EVENTS: usize = 256;

/// The most entries of the fault memory.
pub const ENTRIES: usize = 16;

/// The most data identifiers of one event.
pub const DIDS: usize = 8;

/// The most bytes of one frame.
pub const FRAME: usize = 32;
