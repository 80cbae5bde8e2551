// What stands in for an input or an output that the process was begun without.
use std::fs::File;
use std::io;
use std::rt::Files;

/// Files that take the descriptors 0, 1 and 2 where the process was begun without them, as by `<&-` or `>&-`.
///
/// A file that is opened gets the lowest number that is free, and 1 is what the output is written to: a segment that got it would be
/// written to by what is said. They stand on the null device and can only be read: a closed input reads as empty, and each
/// writing to a closed output fails. Where none is closed they get later numbers and serve nothing.
#[derive(Drop)]
pub struct Reserved<F> {
    first: F,
    second: F,
    third: F,
}

impl<F> Reserved<F> {
    /// Opens them, before any other file is. An error says that the system opens no files at all now.
    pub fn open<R: Files<File = F>>(rt: &R) -> io::Result<Reserved<F>> {
        Ok(Reserved {
            first: null(rt)?,
            second: null(rt)?,
            third: null(rt)?,
        })
    }
}

// Where there is no null device, as in a bare `chroot`, the folder of the system does as well, but that a closed input can't be read.
fn null<R: Files>(rt: &R) -> io::Result<R::File> {
    match File::open(rt, "/dev/null") {
        Ok(file) => Ok(file),
        Err(_) => File::open(rt, "/"),
    }
}
