// Pieces of a line, at the end of a buffer that has room for them.
ghost use Rattle.std.specs.Prelude.{◌≡◌, ◌<◌, ◌≤◌, ◌+◌, ◌*◌, ◌∷◌, ◌++◌, length, vec_len, vec_capacity};
ghost use Rattle.std.specs.Char.{digit_char};
ghost use Rattle.std.specs.Fmt.{decimal};
ghost use Rattle.nn_script.specs.Spelling.{is_plain, escaped_byte, escaped};

use itoa::Buffer;

pub(crate) fn put(bytes: &[u8], out: &mut Vec<u8>)
    requires room { vec_len out.old + length bytes.now ≤ vec_capacity out.old }
    ensures text { out.new.items ≡ out.old.items ++ bytes.now }
    ensures size { vec_len out.new ≡ vec_len out.old + length bytes.now }
    ensures room { vec_capacity out.old ≤ vec_capacity out.new }
{
    match out.extend_from_slice(bytes) {
        Ok(()) => (),
        Err(_) => unreachable!(),
    }
}

// A space and a word.
pub(crate) fn put_word(word: &[u8], out: &mut Vec<u8>)
    requires room { vec_len out.old + 1 + length word.now ≤ vec_capacity out.old }
    ensures text { out.new.items ≡ out.old.items ++ 32 ∷ word.now }
    ensures size { vec_len out.new ≡ vec_len out.old + 1 + length word.now }
    ensures room { vec_capacity out.old ≤ vec_capacity out.new }
{
    put(b" ", out);
    put(word, out);
}

// A space and a number in decimal digits, of which there are at most 20.
pub(crate) fn put_number(number: u64, out: &mut Vec<u8>)
    requires room { vec_len out.old + 21 ≤ vec_capacity out.old }
    ensures text { out.new.items ≡ out.old.items ++ 32 ∷ decimal number }
    ensures size { vec_len out.new ≤ vec_len out.old + 21 }
    ensures room { vec_capacity out.old ≤ vec_capacity out.new }
{
    let mut buffer = Buffer::new();
    put_word(buffer.format(number).as_bytes(), out);
}

// A text with its escapes.
pub(crate) fn put_escaped(text: &[u8], out: &mut Vec<u8>)
    requires room { vec_len out.old + 3 * length text.now ≤ vec_capacity out.old }
    ensures text { out.new.items ≡ out.old.items ++ escaped text.now }
    ensures size { vec_len out.new ≤ vec_len out.old + 3 * length text.now }
    ensures room { vec_capacity out.old ≤ vec_capacity out.new }
{
    for byte in text {
        put_byte(*byte, out);
    }
}

fn put_byte(byte: u8, out: &mut Vec<u8>)
    requires room { vec_len out.old + 3 ≤ vec_capacity out.old }
    ensures text { out.new.items ≡ out.old.items ++ escaped_byte byte }
    ensures size { vec_len out.new ≤ vec_len out.old + 3 }
    ensures room { vec_capacity out.old ≤ vec_capacity out.new }
{
    if is_plain(byte) {
        put(&[byte], out);
        return;
    }
    put(&[b'%', digit(byte / 16), digit(byte % 16)], out);
}

fn is_plain(byte: u8) -> bool
    ensures { result ≡ is_plain byte }
{
    b'!' <= byte && byte <= b'~' && byte != b'%'
}

fn digit(value: u8) -> u8
    requires { value < 16 }
    ensures { result ≡ digit_char value }
{
    if value < 10 {
        b'0' + value
    } else {
        b'a' + (value - 10)
    }
}
