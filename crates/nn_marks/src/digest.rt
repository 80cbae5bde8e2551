// The MD5 file of an image.
ghost use Rattle.std.specs.Prelude.{◌≡◌, ℕ, ◌+◌, ◌<◌, ◌≤◌, ◌^◌, List, ◌++◌, Some, IfSome, length, take};
ghost use Rattle.hex.specs.Hex.{encode_lower, IsBytes};
ghost use Rattle.nn_marks.specs.Digest.{md5_text_of};

use nn_base::Txid;
use nn_base::decimal::{id_digits, number};

/// How many bytes an MD5 file has: 32 digits, a space, `*`, the name of the image and a newline.
pub const MD5_BYTES: usize = 62;

/// The digest in an MD5 file and the id of the image that it names. None for any text that isn't just as `md5_text` writes it,
/// upper-case digits and a missing newline included.
pub fn md5_read(bytes: &[u8]) -> Option<([u8; 16], Txid)>
    ensures found { IfSome result (λ read. bytes.now ≡ md5_text_of read.0 read.1) }
    ensures only { (digest : List ℕ) (id : ℕ) → length digest ≡ 16 → IsBytes digest → id < 2 ^ 63
        → bytes.now ≡ md5_text_of digest id → result ≡ Some (digest, id) }
{
    if bytes.len() != MD5_BYTES {
        return None;
    }
    let (digits, name) = bytes.split_at(32);
    let digest = digest_of(digits)?;
    let id = Txid(number(&name[10..29])?);
    let mut text = [0; 80];
    let len = md5_text(&digest, id, &mut text);
    if &text[..len] == bytes {
        Some((digest, id))
    } else {
        None
    }
}

/// Writes the MD5 file of an image to the front of `out`, and answers its length, 62 bytes. It is as `md5sum` writes it for a
/// file read in binary mode (Hadoop's `MD5FileUtils`).
pub fn md5_text(digest: &[u8; 16], id: Txid, out: &mut [u8; 80]) -> usize
    ensures len { result ≡ 62 }
    ensures text { take result out.new ≡ md5_text_of digest.now id }
{
    let len = put(&hex_digits(digest), 0, out);
    let len = put(b" *fsimage_", len, out);
    let len = put(&id_digits(id.0), len, out);
    put(b"\n", len, out)
}

// The digest that 32 digits write, of either case.
fn digest_of(digits: &[u8]) -> Option<[u8; 16]>
    ensures { (digest : List ℕ) → length digest ≡ 16 → IsBytes digest → digits.now ≡ encode_lower digest → result ≡ Some digest }
{
    let mut digest = [0; 16];
    match hex::decode_to_slice(digits, &mut digest) {
        Ok(()) => Some(digest),
        Err(_) => None,
    }
}

fn hex_digits(digest: &[u8; 16]) -> [u8; 32]
    ensures { result ≡ encode_lower digest.now }
{
    let mut digits = [0; 32];
    hex::encode_to_slice(digest.as_slice(), &mut digits).unwrap();
    digits
}

// Writes bytes behind the first `at` bytes of `out`, and answers where they end.
fn put(bytes: &[u8], at: usize, out: &mut [u8; 80]) -> usize
    requires { at + length bytes.now ≤ 80 }
    ensures end { result ≡ at + length bytes.now }
    ensures written { take result out.new ≡ take at out.old ++ bytes.now }
{
    let end = at + bytes.len();
    out[at..end].copy_from_slice(bytes);
    end
}
