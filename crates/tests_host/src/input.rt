// A runtime whose standard input is interrupted, refused and short.
use nn_files::{Reserved, StdSource};
use nn_host::{Failed, Source};
use std::alloc::Allocator;
use std::fmt::Display;
use std::io;
use std::io::{BufRead, ErrorKind, Lines, Read};
use std::test::Fail;

#[derive(Drop)]
struct Shaky;

// How often it was read so far.
#[derive(Drop)]
struct ShakyReader(u8);

impl Read for ShakyReader {
    fn read(&mut self, out: &mut [u8]) -> io::Result<usize> {
        self.0 = self.0.saturating_add(1);
        match self.0 {
            1 => Err(ErrorKind::Interrupted.into()),
            3 => Err(ErrorKind::BrokenPipe.into()),
            2 | 4 if !out.is_empty() => {
                out[0] = self.0;
                Ok(1)
            }
            _ => Ok(0),
        }
    }
}

impl BufRead for ShakyReader {
    fn fill_buf(&mut self) -> io::Result<&[u8]> {
        Ok(&[])
    }

    fn consume(&mut self, _: usize) {}
}

impl Input for Shaky {
    type Reader = ShakyReader;

    fn read_line<A: Allocator + Clone>(&self, line: &mut String<A>) -> io::Result<usize> {
        self.reader().read_line(line)
    }

    fn lines<A: Allocator>(&self, alloc: A) -> Lines<ShakyReader, A> {
        self.reader().lines(alloc)
    }

    fn reader(&self) -> ShakyReader {
        ShakyReader(0)
    }
}

// What is told of a refused read can't be written, which changes nothing.
impl Eprint for Shaky {
    fn eprint<D: Display + Drop>(&self, _: D) -> io::Result<()> {
        Err(ErrorKind::BrokenPipe.into())
    }

    fn eprintln<D: Display + Drop>(&self, _: D) -> io::Result<()> {
        Err(ErrorKind::BrokenPipe.into())
    }
}

#[test]
fn only_a_refused_read_fails_and_the_next_one_goes_on(rt: HostRuntime) {
    let mut source = StdSource::new(&Shaky);
    let reads = [
        (Ok(1), [2, 0]),
        (Err(Failed), [0, 0]),
        (Ok(1), [4, 0]),
        (Ok(0), [0, 0]),
    ];
    for (answer, held) in reads {
        let mut out = [0; 2];
        assert_eq!(rt; source.take(&mut out), answer);
        assert_eq!(rt; out, held);
    }
}

#[test]
fn files_stand_in_for_an_input_and_an_output_that_are_closed(rt: HostRuntime) -> Result<(), Fail> {
    let _reserved = Reserved::open(&rt)?;
    Ok(())
}
