// Writes the text of a file name.
ghost use Rattle.std.specs.Prelude.{◌≡◌, ◌++◌, OnOk, OnErr, take, vec_len};
ghost use Rattle.nn_base.specs.FileText.{text_of, id_text};

use crate::decimal::id_digits;
use crate::{FileName, NoMemory, Txid};

impl FileName {
    /// Appends the name as it stands in the folder, ids with 19 digits. Where memory runs out nothing is appended.
    pub fn text(self, out: &mut Vec<u8>) -> Result<(), NoMemory>
        ensures ok { OnOk result (out.new.items ≡ out.old.items ++ text_of self) }
        ensures err { OnErr result (out.new.items ≡ out.old.items) }
    {
        let before = out.len();
        let written = append(self, out);
        if written.is_err() {
            out.truncate(before);
        }
        written
    }
}

// A name that memory ran out for leaves the part that was written.
fn append(name: FileName, out: &mut Vec<u8>) -> Result<(), NoMemory>
    ensures ok { OnOk result (out.new.items ≡ out.old.items ++ text_of name) }
    ensures kept { take (vec_len out.old) out.new.items ≡ out.old.items }
{
    match name {
        FileName::Version => append_bytes(b"VERSION", out),
        FileName::VersionTmp => append_bytes(b"VERSION.tmp", out),
        FileName::Seen => append_bytes(b"seen_txid", out),
        FileName::SeenTmp => append_bytes(b"seen_txid.tmp", out),
        FileName::Image(id) => append_id(b"fsimage_", id, b"", out),
        FileName::Md5(id) => append_id(b"fsimage_", id, b".md5", out),
        FileName::Md5Tmp(id) => append_id(b"fsimage_", id, b".md5.tmp", out),
        FileName::Ckpt(id) => append_id(b"fsimage.ckpt_", id, b"", out),
        FileName::InProgress(first) => append_id(b"edits_inprogress_", first.0, b"", out),
        FileName::Edits(span) => {
            append_id(b"edits_", span.first, b"-", out)?;
            append_id(b"", span.last, b"", out)
        }
    }
}

fn append_id(front: &[u8], id: Txid, back: &[u8], out: &mut Vec<u8>) -> Result<(), NoMemory>
    ensures ok { OnOk result (out.new.items ≡ out.old.items ++ (front.now ++ (id_text id ++ back.now))) }
    ensures kept { take (vec_len out.old) out.new.items ≡ out.old.items }
{
    append_bytes(front, out)?;
    append_bytes(&id_digits(id.0), out)?;
    append_bytes(back, out)
}

fn append_bytes(bytes: &[u8], out: &mut Vec<u8>) -> Result<(), NoMemory>
    ensures ok { OnOk result (out.new.items ≡ out.old.items ++ bytes.now) }
    ensures kept { take (vec_len out.old) out.new.items ≡ out.old.items }
{
    out.extend_from_slice(bytes)?;
    Ok(())
}
