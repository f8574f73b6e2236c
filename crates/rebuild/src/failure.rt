// Which stream failed.
use std::io;

/// Why the program has no answer, or a first part of one: what there is to read could not be read, or what is to be
/// written could not be written.
#[derive(Drop)]
pub(crate) enum Failure {
    Read(io::Error),
    Write(io::Error),
}

impl From<Failure> for io::Error {
    fn from(failure: Failure) -> io::Error {
        match failure {
            Failure::Read(error) | Failure::Write(error) => error,
        }
    }
}
