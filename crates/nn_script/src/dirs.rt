// What is said of a run's directories.
ghost use Rattle.std.specs.Prelude.{◌≡◌, ◌≤◌, ◌+◌, ◌∷◌, ◌++◌, codes, if◌then◌else◌, length, vec_len, vec_capacity};
ghost use Rattle.nn_script.specs.Spelling.{dir_line, max_dir_line};

use crate::append::{put, put_number, put_word};
use nn_base::DirNo;

/// The most bytes that the line of a directory has.
pub const MAX_DIR_LINE: usize = 33;

/// Appends whether a directory is live, still written to by the run, or was dropped, to a buffer that has room for the line:
/// `dir I live` or `dir I dropped`. It takes no memory.
pub fn dir_line(dir: DirNo, live: bool, out: &mut Vec<u8>)
    requires room { vec_len out.old + max_dir_line ≤ vec_capacity out.old }
    ensures text { out.new.items ≡ out.old.items ++ dir_line dir.0 live }
    ensures short { length (dir_line dir.0 live) ≤ max_dir_line }
    ensures size { vec_len out.new ≤ vec_len out.old + max_dir_line }
    ensures room { vec_capacity out.old ≤ vec_capacity out.new }
{
    put(b"dir", out);
    put_number(u64::from(dir.0), out);
    put_state(live, out);
    put(b"\n", out);
}

fn put_state(live: bool, out: &mut Vec<u8>)
    requires room { vec_len out.old + 8 ≤ vec_capacity out.old }
    ensures text { out.new.items ≡ out.old.items ++ 32 ∷ (if live then codes "live" else codes "dropped") }
    ensures size { vec_len out.new ≤ vec_len out.old + 8 }
    ensures room { vec_capacity out.old ≤ vec_capacity out.new }
{
    if live {
        put_word(b"live", out);
    } else {
        put_word(b"dropped", out);
    }
}
