//! The words that a program is called with.
use std::alloc::AllocError;
use std::io::ErrorKind;
use std::rt::Env;
use std::{env, io};

/// The words after the program's name.
fn read_words(rt: &(impl Env + AllocGlobal)) -> io::Result<Vec<String>> {
    let mut words = Vec::new(rt.alloc());
    for word in env::args(rt)?.skip(1) {
        words.push(word)?;
    }
    Ok(words)
}

/// The words after the program's name. Where one of them is no text there are none, as words that are no text are no command.
///
/// # Errors
///
/// `AllocError` if memory ran out.
pub fn command_words(rt: &(impl Env + AllocGlobal)) -> Result<Vec<String>, AllocError> {
    match read_words(rt) {
        Ok(words) => Ok(words),
        Err(error) if error.kind() == ErrorKind::OutOfMemory => Err(AllocError),
        Err(_) => Ok(Vec::new(rt.alloc())),
    }
}
