// Two paths of a command line that lead to one folder.
//
// Each record would stand twice in its one segment, and a start reads no further than the first pair.
use std::fs::metadata;
use std::os::unix::fs::MetadataExt;
use std::rt::Files;

/// Warns a person, on the standard error, of each path that leads to a folder that one before it leads to: by device and inode.
pub fn warn_of_twins<R: Files + Eprint>(rt: &R, dirs: &[String]) {
    'dirs: for later in 1..dirs.len() {
        'before: for first in 0..later {
            if lead_to_one(rt, dirs[first].as_str(), dirs[later].as_str()) {
                let _ = eprintln!(rt;
                    "namenode: warning: directories {first} and {later}, {} and {}, are one folder: what a run writes there is lost",
                    dirs[first], dirs[later]
                );
            }
        }
    }
}

// A path of which the system tells nothing leads to no folder.
fn lead_to_one<R: Files>(rt: &R, one: &str, other: &str) -> bool {
    match (metadata(rt, one), metadata(rt, other)) {
        (Ok(one), Ok(other)) => one.dev() == other.dev() && one.ino() == other.ino(),
        _ => false,
    }
}
