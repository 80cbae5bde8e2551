// seen_txid.
ghost use Rattle.std.specs.Prelude.{◌≡◌, ◌≢◌, ◌⊎◌, ℕ, ◌≤◌, List, ◌++◌, codes, Some, IfSome, take};
ghost use Rattle.nn_marks.specs.Seen.{seen_text_of, IsSeenText};

use itoa::Buffer;
use nn_base::Txid;
use nn_base::decimal::number;

/// The id in a `seen_txid` file: 1 to 19 digits that write a number below 2^63, with or without a newline behind them.
/// None for any other text. It is the file of Hadoop's `PersistentLongFile`, whose `Long.parseLong` takes a sign too.
pub fn seen_read(bytes: &[u8]) -> Option<u64>
    ensures found { IfSome result (IsSeenText bytes.now) }
    ensures only { (id : ℕ) → IsSeenText bytes.now id → result ≡ Some id }
{
    number(without_newline(bytes))
}

fn without_newline(bytes: &[u8]) -> &[u8]
    ensures { (bytes.now ≡ result.now ++ codes "\n") ⊎ ((bytes.now ≡ result.now) × ((front : List ℕ) → bytes.now ≢ front ++ codes "\n")) }
{
    match bytes.strip_suffix(b"\n") {
        Some(digits) => digits,
        None => bytes,
    }
}

/// Writes the text of a `seen_txid` file to the front of `out`, and answers its length in bytes.
pub fn seen_text(id: Txid, out: &mut [u8; 20]) -> usize
    ensures room { result ≤ 20 }
    ensures text { take result out.new ≡ seen_text_of id }
    ensures reads_back { IsSeenText (take result out.new) id }
{
    let mut buffer = Buffer::new();
    let digits = buffer.format(id.0).as_bytes();
    let len = digits.len();
    out[..len].copy_from_slice(digits);
    out[len] = b'\n';
    len + 1
}
