// The lines of a text, and what they say.
ghost use Rattle.std.specs.Prelude.{◌≡◌, ◌==◌, ◌<◌, ◌∷◌, Some, length, map, is_some};
ghost use Rattle.std.specs.List.{list_any, position};
ghost use Rattle.std.specs.Option.{option_copied};
ghost use Rattle.std.specs.Str.Lines.{lines, strip_carriage_return};
ghost use Rattle.nn_base.specs.First.{first_of};
ghost use Rattle.nn_marks.specs.Version.{value_in, value_of, key_in, is_skipped};
ghost use Rattle.nn_marks.specs.VersionFaults.{is_bad};

use crate::Key;

// The value that the first line with a key gives it.
pub(crate) fn value_of<'a>(key: Key, text: &'a [u8]) -> Option<&'a [u8]>
    ensures { option_copied result ≡ value_of key (lines text.now) }
{
    let mut rest = text;
    'lines: while !rest.is_empty() {
        let (line, after) = first_line(rest);
        let value = value_in(key, line);
        if value.is_some() {
            return value;
        }
        rest = after;
    }
    None
}

// The first line, without its newline and the carriage return before that, and what stands behind it.
pub(crate) fn first_line(text: &[u8]) -> (&[u8], &[u8])
    requires { 0 < length text.now }
    ensures shorter { length result.1.now < length text.now }
    ensures lines { lines text.now ≡ result.0.now ∷ lines result.1.now }
{
    match newline_in(text) {
        Some(end) => (without_carriage_return(&text[..end]), &text[end + 1..]),
        None => text.split_at(text.len()),
    }
}

fn newline_in(text: &[u8]) -> Option<usize>
    ensures { result ≡ position (λ byte. byte == 10) text.now }
{
    text.iter().position(|byte| *byte == b'\n')
}

fn without_carriage_return(line: &[u8]) -> &[u8]
    ensures { result.now ≡ strip_carriage_return line.now }
{
    match line {
        [front @ .., b'\r'] => front,
        _ => line,
    }
}

fn value_in<'a>(key: Key, line: &'a [u8]) -> Option<&'a [u8]>
    ensures { option_copied result ≡ value_in key line.now }
{
    line.strip_prefix(key.name().as_bytes())?.strip_prefix(b"=")
}

// The key that a line gives a value.
pub(crate) fn key_in(line: &[u8]) -> Option<Key>
    ensures { result ≡ key_in line.now }
{
    if gives(Key::NamespaceId, line) {
        return Some(Key::NamespaceId);
    }
    if gives(Key::ClusterId, line) {
        return Some(Key::ClusterId);
    }
    if gives(Key::CTime, line) {
        return Some(Key::CTime);
    }
    if gives(Key::StorageType, line) {
        return Some(Key::StorageType);
    }
    if gives(Key::BlockpoolId, line) {
        return Some(Key::BlockpoolId);
    }
    if gives(Key::LayoutVersion, line) {
        return Some(Key::LayoutVersion);
    }
    None
}

fn gives(key: Key, line: &[u8]) -> bool
    ensures { result ≡ is_some (value_in key line.now) }
{
    value_in(key, line).is_some()
}

// Whether a line says something and has no `=`.
pub(crate) fn is_bad(line: &[u8]) -> bool
    ensures { result ≡ is_bad line.now }
{
    !is_skipped(line) && !line.contains(&b'=')
}

fn is_skipped(line: &[u8]) -> bool
    ensures { result ≡ is_skipped line.now }
{
    match line.first() {
        Some(byte) => *byte == b'#',
        None => true,
    }
}
