//! A dump.
ghost use Rattle.std.specs.Prelude.{◌≡◌, ◌*◌, vec_len};

use flt_config::ValidConfig;
use flt_script::ScriptFault;
use thiserror::Error;

/// A configuration, and the pages of an image: those of sector 0 first, as many of each sector as the configuration has.
#[derive(Drop)]
pub struct Dump {
    pub config: ValidConfig,
    pub pages: Vec<[u8; 32]>,
    ghost many: { vec_len pages ≡ 2 * config.pages },
}

/// Why bytes are no dump.
#[derive(Clone, Copy, Debug, PartialEq, Eq, Error)]
pub enum DumpFault {
    /// Memory ran out. This says nothing about the bytes.
    #[error("memory ran out")]
    Memory,
    /// The lines before the line `image` are no script; or there is no such line, which is reported of line 1 as `form`.
    #[error("the lines before the line `image` are no script")]
    Script(ScriptFault),
    /// They have a step, or the end of a life.
    #[error("the lines before the line `image` have a step, or the end of a life")]
    Other,
    /// The first line of the pages that is wrong, missing or too many, counted from 1 from the first line of all.
    #[error("a line of the pages is wrong, missing or too many")]
    PageLine(usize),
}
