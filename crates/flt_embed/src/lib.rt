//! The fault memory for a program that is linked with it: each call is made at once, over a copy of the image that the program keeps, and
//! what is to be done to the flash is handed out as operations.
//!
//! It depends on `flt_dcm` for the machine, on `flt_queue` for the write jobs, on `flt_store` over `flt_fee` and `flt_file` for the image,
//! and on `flt_report` for the lines. `flt_c` above puts the calls of `Memory` under the names of C. Read `specs/Made.antt` first, then
//! `specs/Carried.antt`.
#![tactic(auto)]

mod diary;
mod fault;
mod memory;
mod operation;
mod reading;
mod storing;
pub mod worked;

pub use fault::Fault;
pub use memory::{Memory, Stage};
pub use operation::Operation;
pub use reading::read_config;
