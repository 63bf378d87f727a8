//! The texts of a life.

/// The texts of a life, lent by the value that has them.
#[derive(Drop)]
pub struct Trace<'a> {
    /// The script.
    pub script: &'a str,
    /// The used blocks of the state with which the life began.
    pub base: Vec<&'a str>,
    /// The calls of its journal.
    pub journal: Vec<&'a str>,
    /// The answer to each call.
    pub answers: Vec<&'a str>,
}

/// The texts of a life, to be printed.
#[derive(Drop)]
pub struct LifeTexts {
    /// The script.
    pub script: String,
    /// The used blocks of the state with which the life began.
    pub base: Vec<String>,
    /// The calls of its journal.
    pub journal: Vec<String>,
    /// The answer to each call.
    pub answers: Vec<String>,
}
