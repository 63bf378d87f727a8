//! A session of the fault memory: it reads one line, makes its step, and answers it before it reads the next, over a flash that outlives
//! the process.
//!
//! It depends on `flt_script` for a line and for the configuration, on `flt_lives` for a step, on `flt_queue` for the write jobs, on
//! `flt_report` for a line of the answer, and on `flt_file` for the flash. The program above calls
//! `run_live`, which holds a session by `run_session` over a `Shelf`. That gives the flash of each life: `FileShelf` opens a file, and
//! `MemShelf` keeps it in memory, and may cut it off from its bytes, as a kill does. Read `specs/Answered.antt` first (what one line leaves, and what is written for it), then `specs/Lived.antt`
//! (what a life comes to).
#![tactic(auto)]

mod ear;
pub mod laws;
mod line;
mod living;
mod making;
mod program;
mod reader;
mod session;
mod shelf;
pub mod worked;

pub use ear::Ear;
pub use line::{Answered, Due, Refusal, answer_dark_line, answer_line};
pub use living::{LifeEnd, Lived, Room, live};
pub use program::run_live;
pub use reader::{Line, LineReader};
pub use session::run_session;
pub use shelf::{FileShelf, MemShelf, Shelf, Stop};
