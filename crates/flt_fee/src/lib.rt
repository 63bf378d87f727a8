//! A driver of blocks in the records of two sectors, which are switched when one is full.
//!
//! It depends on `flt_pages` and the definitions of `flt_sector_model`, and keeps `Blocks` of `flt_flash` for every
//! bench: what it means is `blocks` of the whole image of its flash (`specs/Fee.antt`, to be read first), and whatever
//! operation fails, the image means the old or the new value of the one block and the old value of every other. The examples of
//! `worked` are images with what a record is refused for.
#![tactic(auto)]

mod fee;
pub mod worked;

pub use fee::Fee;
