// Reads the text of a file name.
ghost use Rattle.std.specs.Prelude.{◌≡◌, ◌≢◌, ℕ, ◌<◌, ◌^◌, List, ◌++◌, codes, IfSome, IsSomeAnd, MatchOption, Some};
ghost use Rattle.nn_base.specs.declared.file_name.FileName.{FileName};
ghost use Rattle.nn_base.specs.Names.{form_of};
ghost use Rattle.nn_base.specs.FileText.{text_of, id_text, IsInRange, IsReading};

use crate::decimal::{ID_DIGITS, number};
use crate::{FileName, FirstTxid, Span, Txid};

impl FileName {
    /// The name that a text is the text of. None for the text of any other file, and for an id that the form doesn't allow.
    pub fn parse(text: &[u8]) -> Option<FileName>
        ensures found { IfSome result (λ name. IsInRange name × (text_of name ≡ text.now)) }
        ensures only { (name : FileName) → IsInRange name → text_of name ≡ text.now → result ≡ Some name }
    {
        if let Some(rest) = after(b"fsimage_", text) {
            return image(rest);
        }
        if let Some(rest) = after(b"fsimage.ckpt_", text) {
            return checkpoint(rest);
        }
        if let Some(rest) = after(b"edits_", text) {
            return edits(rest);
        }
        without_id(text)
    }
}

fn image(rest: &[u8]) -> Option<FileName>
    ensures { IsReading (codes "fsimage_" ++ rest.now) result }
{
    let (id, back) = leading_id(rest)?;
    let id = Txid(id);
    if back.is_empty() {
        return Some(FileName::Image(id));
    }
    if back == b".md5".as_slice() {
        return Some(FileName::Md5(id));
    }
    if back == b".md5.tmp".as_slice() {
        return Some(FileName::Md5Tmp(id));
    }
    None
}

fn checkpoint(rest: &[u8]) -> Option<FileName>
    ensures { IsReading (codes "fsimage.ckpt_" ++ rest.now) result }
{
    let id = whole_id(rest)?;
    Some(FileName::Ckpt(id))
}

fn edits(rest: &[u8]) -> Option<FileName>
    ensures { IsReading (codes "edits_" ++ rest.now) result }
{
    if let Some(first) = after(b"inprogress_", rest) {
        return in_progress(first);
    }
    finalized(rest)
}

fn in_progress(rest: &[u8]) -> Option<FileName>
    ensures { IsReading (codes "edits_inprogress_" ++ rest.now) result }
{
    let first = whole_id(rest)?;
    if first.0 == 0 {
        return None;
    }
    Some(FileName::InProgress(FirstTxid(first)))
}

fn finalized(rest: &[u8]) -> Option<FileName>
    ensures found { IfSome result (λ name. IsInRange name × (text_of name ≡ codes "edits_" ++ rest.now)) }
    ensures only { (name : FileName) → IsInRange name → form_of name ≡ 8 → text_of name ≡ codes "edits_" ++ rest.now → result ≡ Some name }
{
    let (first, back) = leading_id(rest)?;
    let last = whole_id(after(b"-", back)?)?;
    if first == 0 || last.0 < first {
        return None;
    }
    Some(FileName::Edits(Span {
        first: Txid(first),
        last,
    }))
}

fn without_id(text: &[u8]) -> Option<FileName>
    ensures found { IfSome result (λ name. IsInRange name × (text_of name ≡ text.now)) }
    ensures only { (name : FileName) → form_of name < 4 → text_of name ≡ text.now → result ≡ Some name }
{
    if text == b"VERSION".as_slice() {
        return Some(FileName::Version);
    }
    if text == b"VERSION.tmp".as_slice() {
        return Some(FileName::VersionTmp);
    }
    if text == b"seen_txid".as_slice() {
        return Some(FileName::Seen);
    }
    if text == b"seen_txid.tmp".as_slice() {
        return Some(FileName::SeenTmp);
    }
    None
}

fn whole_id(text: &[u8]) -> Option<Txid>
    ensures found { IfSome result (λ id. (id < 2 ^ 63) × (text.now ≡ id_text id)) }
    ensures only { (id : ℕ) → id < 2 ^ 63 → text.now ≡ id_text id → result ≡ Some id }
{
    if text.len() != ID_DIGITS {
        return None;
    }
    let id = number(text)?;
    Some(Txid(id))
}

fn leading_id(text: &[u8]) -> Option<(u64, &[u8])>
    ensures found { IfSome result (λ read. (read.0 < 2 ^ 63) × (text.now ≡ id_text read.0 ++ read.1.now)) }
    ensures only { (id : ℕ) (back : List ℕ) → id < 2 ^ 63 → text.now ≡ id_text id ++ back → IsSomeAnd result (λ read. (read.0 ≡ id) × (read.1.now ≡ back)) }
{
    if text.len() < ID_DIGITS {
        return None;
    }
    let (digits, back) = text.split_at(ID_DIGITS);
    let id = whole_id(digits)?;
    Some((id.0, back))
}

fn after<'a>(front: &[u8], text: &'a [u8]) -> Option<&'a [u8]>
    ensures { MatchOption result ((rest : List ℕ) → text.now ≢ front.now ++ rest) (λ rest. text.now ≡ front.now ++ rest.now) }
{
    text.strip_prefix(front)
}
