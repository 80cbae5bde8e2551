// The lines of a generated file.
ghost use Rattle.std.specs.Prelude.{◌≡◌, ◌<◌, ◌≤◌, ◌+◌, ◌/◌, ◌∷◌, ◌++◌, [], codes, length, vec_len, vec_capacity, OnOk, OnErr};
ghost use Rattle.std.specs.Fmt.{decimal};
ghost use Rattle.nn_script.specs.Spelling.{line_of};
ghost use Rattle.nn_generate.specs.Generated.{dir_by, path_by, dir_line, length_of, file_lines, max_file};

use itoa::Buffer;
use nn_base::NoMemory;

/// How many files a script is made for at most.
pub const MOST_FILES: u32 = 500_000;

/// The most bytes that the lines of a file have.
pub const MAX_FILE: usize = 128;

// How many files a directory has.
const FILES_OF_DIR: u32 = 100;

// 128 MiB, the usual length of a block in HDFS.
const FULL_BLOCK: u64 = 134_217_728;

/// Appends the lines of file k, counted from 0: that it is made with three replicas, its one block of up to 128 MiB, and that it
/// is closed. The first file of each hundred has the line of their directory in front.
///
/// Memory is taken only where the buffer has no room for `MAX_FILE` bytes more. Where it runs out nothing is appended.
pub fn generate(k: u32, out: &mut Vec<u8>) -> Result<(), NoMemory>
    ensures ok { OnOk result (out.new.items ≡ out.old.items ++ file_lines k) }
    ensures err { OnErr result (out.new.items ≡ out.old.items) }
    ensures memory { OnErr result (vec_capacity out.old < vec_len out.old + max_file) }
    ensures size { vec_len out.new ≤ vec_len out.old + max_file }
    ensures room { vec_capacity out.old ≤ vec_capacity out.new }
{
    out.reserve(MAX_FILE)?;
    let mut dir = Buffer::new();
    let mut file = Buffer::new();
    let dir = dir.format(k / FILES_OF_DIR).as_bytes();
    let file = file.format(k).as_bytes();
    put_dir_of(k, dir, out);
    put_create(dir, file, out);
    put_block(k, dir, file, out);
    put_close(dir, file, out);
    Ok(())
}

// The line of a file's directory, where the file is the first one there.
fn put_dir_of(k: u32, dir: &[u8], out: &mut Vec<u8>)
    requires digits { dir.now ≡ decimal (k / 100) }
    requires short { length dir.now ≤ 10 }
    requires room { vec_len out.old + 19 ≤ vec_capacity out.old }
    ensures text { out.new.items ≡ out.old.items ++ dir_line k }
    ensures size { vec_len out.new ≤ vec_len out.old + 19 }
    ensures room { vec_capacity out.old ≤ vec_capacity out.new }
{
    if k % FILES_OF_DIR == 0 {
        put_dir(dir, out);
    }
}

// The line of a directory, by its number's digits.
fn put_dir(dir: &[u8], out: &mut Vec<u8>)
    requires short { length dir.now ≤ 10 }
    requires room { vec_len out.old + 19 ≤ vec_capacity out.old }
    ensures text { out.new.items ≡ out.old.items ++ line_of (codes "mkdir" ∷ dir_by dir.now ∷ []) }
    ensures size { vec_len out.new ≤ vec_len out.old + 19 }
    ensures room { vec_capacity out.old ≤ vec_capacity out.new }
{
    put(b"mkdir /g", out);
    put(dir, out);
    put(b"\n", out);
}

// The line that makes a file, by the digits of its directory's number and of its own.
fn put_create(dir: &[u8], file: &[u8], out: &mut Vec<u8>)
    requires dir { length dir.now ≤ 10 }
    requires file { length file.now ≤ 10 }
    requires room { vec_len out.old + 34 ≤ vec_capacity out.old }
    ensures text { out.new.items ≡ out.old.items ++ line_of (codes "create" ∷ path_by dir.now file.now ∷ codes "3" ∷ []) }
    ensures size { vec_len out.new ≤ vec_len out.old + 34 }
    ensures room { vec_capacity out.old ≤ vec_capacity out.new }
{
    put(b"create ", out);
    put_path(dir, file, out);
    put(b" 3\n", out);
}

// The line of its block.
fn put_block(k: u32, dir: &[u8], file: &[u8], out: &mut Vec<u8>)
    requires dir { length dir.now ≤ 10 }
    requires file { length file.now ≤ 10 }
    requires room { vec_len out.old + 42 ≤ vec_capacity out.old }
    ensures text { out.new.items ≡ out.old.items ++ line_of (codes "block" ∷ path_by dir.now file.now ∷ decimal (length_of k) ∷ []) }
    ensures size { vec_len out.new ≤ vec_len out.old + 42 }
    ensures room { vec_capacity out.old ≤ vec_capacity out.new }
{
    let length = 1 + (u64::from(k) * 9000 % FULL_BLOCK) as u32;
    let mut digits = Buffer::new();
    put(b"block ", out);
    put_path(dir, file, out);
    put(b" ", out);
    put(digits.format(length).as_bytes(), out);
    put(b"\n", out);
}

// The line that closes it.
fn put_close(dir: &[u8], file: &[u8], out: &mut Vec<u8>)
    requires dir { length dir.now ≤ 10 }
    requires file { length file.now ≤ 10 }
    requires room { vec_len out.old + 31 ≤ vec_capacity out.old }
    ensures text { out.new.items ≡ out.old.items ++ line_of (codes "close" ∷ path_by dir.now file.now ∷ []) }
    ensures size { vec_len out.new ≤ vec_len out.old + 31 }
    ensures room { vec_capacity out.old ≤ vec_capacity out.new }
{
    put(b"close ", out);
    put_path(dir, file, out);
    put(b"\n", out);
}

fn put_path(dir: &[u8], file: &[u8], out: &mut Vec<u8>)
    requires dir { length dir.now ≤ 10 }
    requires file { length file.now ≤ 10 }
    requires room { vec_len out.old + 24 ≤ vec_capacity out.old }
    ensures text { out.new.items ≡ out.old.items ++ path_by dir.now file.now }
    ensures size { vec_len out.new ≤ vec_len out.old + 24 }
    ensures room { vec_capacity out.old ≤ vec_capacity out.new }
{
    put(b"/g", out);
    put(dir, out);
    put(b"/f", out);
    put(file, out);
}

fn put(bytes: &[u8], out: &mut Vec<u8>)
    requires room { vec_len out.old + length bytes.now ≤ vec_capacity out.old }
    ensures text { out.new.items ≡ out.old.items ++ bytes.now }
    ensures size { vec_len out.new ≡ vec_len out.old + length bytes.now }
    ensures room { vec_capacity out.old ≤ vec_capacity out.new }
{
    match out.extend_from_slice(bytes) {
        Ok(()) => (),
        Err(_) => unreachable!(),
    }
}
