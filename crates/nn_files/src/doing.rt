// What a person is told, on the standard error, of a call that the system refused.
//
// A line that can't be written there is dropped: nothing depends on it.
use crate::paths::Place;
use nn_base::{DirNo, FileName, Sub};
use std::io;

/// What a call does.
#[derive(Clone, Copy)]
pub enum Verb {
    LookAt,
    List,
    Read,
    Make,
    WriteTo,
    Sync,
    Rename,
    Remove,
}

impl Verb {
    fn text(self) -> &'static str {
        match self {
            Verb::LookAt => "look at",
            Verb::List => "list",
            Verb::Read => "read",
            Verb::Make => "make",
            Verb::WriteTo => "write to",
            Verb::Sync => "sync",
            Verb::Rename => "rename",
            Verb::Remove => "remove",
        }
    }
}

/// What a call is doing to a directory, and the subfolder and the file that it is about, if it is.
#[derive(Clone, Copy)]
pub struct Doing {
    verb: Verb,
    sub: Option<Sub>,
    name: Option<FileName>,
}

impl Doing {
    pub fn root(verb: Verb) -> Doing {
        Doing {
            verb,
            sub: None,
            name: None,
        }
    }

    pub fn sub(verb: Verb, sub: Sub) -> Doing {
        Doing {
            verb,
            sub: Some(sub),
            name: None,
        }
    }

    pub fn file(verb: Verb, sub: Sub, name: &FileName) -> Doing {
        Doing {
            verb,
            sub: Some(sub),
            name: Some(*name),
        }
    }

    /// Tells that the system refused this in directory `i`, and its error.
    pub fn refused<R: Eprint>(&self, place: &Place<'_, R>, i: DirNo, error: &io::Error) {
        let (rt, verb) = (place.rt, self.verb.text());
        let _ = match self.path(place) {
            Ok(path) => eprintln!(rt; "namenode: directory {}: can't {verb} {path}: {error}", i.0),
            // There was no memory for the path.
            Err(_) => eprintln!(rt; "namenode: directory {}: can't {verb}: {error}", i.0),
        };
    }

    fn path<R>(&self, place: &Place<'_, R>) -> io::Result<String> {
        match (self.sub, self.name) {
            (Some(sub), Some(name)) => place.file_path(sub, &name),
            (Some(sub), None) => place.sub_path(sub),
            _ => Ok(String::from_str(place.alloc, place.root)?),
        }
    }
}
