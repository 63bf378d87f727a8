//! The complement code of a sector's pages, the words that they hold, and the law of tearing.
//!
//! It depends on `flt_flash`, whose tearing the law is about. The layer above uses `seal`, `unseal`, `put_word` and
//! `get_word`, each exact, and `tearing`: a page torn between blank and a code word is no other code word. Read
//! `specs/Seal.antt` first, then `specs/Word.antt`.
#![tactic(auto)]

mod code;
mod law;
mod words;

pub use code::{is_spoiled, seal, unseal};
pub use law::tearing;
pub use words::{Word, get_word, put_word};
