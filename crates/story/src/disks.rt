// Disks in memory, and programs that are run over them.
ghost use Rattle.std.specs.Prelude.{◌≤◌};

use nn_base::{DirNo, FileName, NoMemory, Sub};
use nn_host::Host;
use nn_memhost::{MemHost, MemSource, Part};
use nn_small::read_all;
use nn_top::{command_of, exit_code};
use std::alloc::{AllocError, AllocFailed, Global};
use std::io;

/// Why the story can't go on.
#[derive(Debug, Drop)]
pub enum Broken {
    /// Memory ran out.
    Memory,
    /// The output failed.
    Output(io::Error),
    /// The program or a disk did what the story doesn't tell.
    Plot,
}

impl From<AllocError> for Broken {
    fn from(_: AllocError) -> Broken {
        Broken::Memory
    }
}

impl<T: Drop> From<AllocFailed<T>> for Broken {
    fn from(_: AllocFailed<T>) -> Broken {
        Broken::Memory
    }
}

impl From<NoMemory> for Broken {
    fn from(_: NoMemory) -> Broken {
        Broken::Memory
    }
}

impl From<io::Error> for Broken {
    fn from(error: io::Error) -> Broken {
        Broken::Output(error)
    }
}

/// So many disks, with name directories that hold nothing yet. The call of this number fails, where there is one, and does
/// nothing then.
pub fn disks(alloc: Global, count: u8, failing: Option<u64>) -> Result<MemHost, Broken>
    requires { count ≤ 8 }
{
    let mut fails = Vec::new(alloc);
    if let Some(call) = failing {
        fails.push((call, Part::Nothing))?;
    }
    Ok(MemHost::new(alloc, count, fails)?)
}

/// Runs the program with these words over the disks. The read of the script with this number fails, where there is one.
/// Gives what was said.
pub fn run(
    alloc: Global,
    host: &mut MemHost,
    line: &str,
    script: &str,
    failing: Option<u64>,
) -> Result<String, Broken> {
    let mut words = Vec::new(alloc);
    for word in line.split(' ') {
        words.push(String::from_str(alloc, word)?)?;
    }
    let mut fails = Vec::new(alloc);
    if let Some(call) = failing {
        fails.push(call)?;
    }
    let script = Vec::from_slice(alloc, script.as_bytes())?;
    let mut source = MemSource::new(script, fails);
    let before = host.said().len();
    run_words(alloc, host, &words, &mut source)?;
    text(alloc, host.said().get(before..).unwrap_or(&[]))
}

fn run_words(
    alloc: Global,
    host: &mut MemHost,
    words: &[String],
    source: &mut MemSource,
) -> Result<(), Broken> {
    let Some(command) = command_of(words) else {
        return Err(Broken::Plot);
    };
    if command.dirs().len() != host.count() as usize {
        return Err(Broken::Plot);
    }
    let _exit = exit_code(alloc, words, source, host);
    Ok(())
}

fn text(alloc: Global, bytes: &[u8]) -> Result<String, Broken> {
    match String::from_utf8(Vec::from_slice(alloc, bytes)?) {
        Ok(text) => Ok(text),
        Err(_) => Err(Broken::Plot),
    }
}

/// Of these disks those of these numbers alone, with what their name directories hold.
pub fn chosen(alloc: Global, host: &mut MemHost, numbers: &[u8]) -> Result<MemHost, Broken> {
    if numbers.len() > 8 {
        return Err(Broken::Plot);
    }
    let mut alone = MemHost::new(alloc, numbers.len() as u8, Vec::new(alloc))?;
    for (place, number) in numbers.iter().enumerate() {
        copy_files(alloc, host, *number, &mut alone, place)?;
    }
    Ok(alone)
}

fn copy_files(
    alloc: Global,
    host: &mut MemHost,
    from: u8,
    alone: &mut MemHost,
    place: usize,
) -> Result<(), Broken> {
    let names = files(alloc, host, DirNo(from))?;
    for name in &names {
        let bytes = contents(alloc, host, DirNo(from), *name)?;
        give(alone, place, *name, &bytes)?;
    }
    Ok(())
}

fn give(host: &mut MemHost, place: usize, name: FileName, bytes: &[u8]) -> Result<(), Broken> {
    if place >= host.count() as usize {
        return Err(Broken::Plot);
    }
    Ok(host.with_file(DirNo(place as u8), Sub::Current, name, bytes)?)
}

/// The files of a name directory's `current`, in the order of their names.
pub fn files(alloc: Global, host: &mut MemHost, i: DirNo) -> Result<Vec<FileName>, Broken> {
    let mut names = Vec::new(alloc);
    if i.0 >= host.count() || host.list(i, Sub::Current, &mut names).is_err() {
        return Err(Broken::Plot);
    }
    Ok(names)
}

/// The bytes of one of them.
pub fn contents(
    alloc: Global,
    host: &mut MemHost,
    i: DirNo,
    name: FileName,
) -> Result<Vec<u8>, Broken> {
    if i.0 >= host.count() {
        return Err(Broken::Plot);
    }
    match read_all(alloc, host, i, Sub::Current, name, 1 << 20) {
        Ok(bytes) => Ok(bytes),
        Err(_) => Err(Broken::Plot),
    }
}
