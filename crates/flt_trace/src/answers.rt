//! The answers of a life as texts, each at the place of its call.
mod answering;
pub mod laws;

pub use answering::answer_texts;
