use std::alloc::{Alloc, AllocError};
use std::rt::Env;
use std::{env, io};

/// Returns the arguments after the name of the program. Arguments that are not UTF-8 count as no arguments.
pub fn program_words<R: Env + Alloc>(rt: &R) -> Result<Vec<String<R::A>, R::A>, AllocError> {
    match read_words(rt) {
        Ok(words) => Ok(words),
        Err(error) if error.kind() == io::ErrorKind::OutOfMemory => Err(AllocError),
        Err(_) => Ok(Vec::new(rt.alloc())),
    }
}

fn read_words<R: Env + Alloc>(rt: &R) -> io::Result<Vec<String<R::A>, R::A>> {
    let mut words = Vec::new(rt.alloc());
    for word in env::args(rt)?.skip(1) {
        words.push(word)?;
    }
    Ok(words)
}
