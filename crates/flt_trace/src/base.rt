//! The base of a trace: the state with which a life began, as the texts of its blocks.
mod printing;
mod reading;

pub use printing::base_texts;
pub use reading::read_base;
