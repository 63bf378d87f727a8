//! The calls of a trace's journal, each as the text of its step or of what a save makes, after the number of its lane.
mod printing;
mod reading;

pub use printing::call_texts;
pub use reading::read_calls;
