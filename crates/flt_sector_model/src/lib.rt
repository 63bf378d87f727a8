//! What the image of a flash says: definitions of one whole image, with their laws and worked examples.
//!
//! It depends on `flt_flash` and `flt_code`. Every crate over the flash states its contracts by these definitions: the item
//! at a page and the log of a sector (`specs/Log.antt`), the gates of a sector (`specs/Gates.antt`), and for a whole image the
//! current sector, the first fault in the order in which a mount looks, the log, and what each block holds
//! (`specs/Blocks.antt`, to be read first). They do not depend on how an image came about. The same rules are also stated as
//! facts about single pages: each fault, with the order of the mount (`specs/Damage.antt`), and the pages that a log reaches
//! (`specs/Reached.antt`); `laws` connect the two. The examples of `worked` are images with what each block holds, and with each fault.
#![tactic(auto)]

pub mod laws;
mod log;
pub mod worked;

pub use log::Item;
