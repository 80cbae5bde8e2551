// Writes a VERSION file.
ghost use Rattle.std.specs.Prelude.{◌≡◌, ◌++◌, codes, IfOk, OnOk};
ghost use Rattle.nn_marks.specs.Version.{front_of};
ghost use Rattle.nn_marks.specs.VersionText.{line_text, version_text_of, IsVersionText};

use crate::{Key, Version};
use itoa::Buffer;
use nn_base::NoMemory;
use std::alloc::Global;

/// The text of a VERSION file: a line for each key in the order of `Key`, each with a newline at its end.
pub fn version_text(alloc: Global, version: &Version) -> Result<Vec<u8>, NoMemory>
    ensures ok { IfOk result (λ text. text.items ≡ version_text_of version.now) }
    ensures reads_back { IfOk result (λ text. IsVersionText text.items version.now) }
{
    let mut text = Vec::new(alloc);
    append_key(Key::NamespaceId, version, &mut text)?;
    append_key(Key::ClusterId, version, &mut text)?;
    append_key(Key::CTime, version, &mut text)?;
    append_key(Key::StorageType, version, &mut text)?;
    append_key(Key::BlockpoolId, version, &mut text)?;
    append_key(Key::LayoutVersion, version, &mut text)?;
    Ok(text)
}

fn append_key(key: Key, version: &Version, text: &mut Vec<u8>) -> Result<(), NoMemory>
    ensures { OnOk result (text.new.items ≡ text.old.items ++ line_text version.now key) }
{
    let mut digits = Buffer::new();
    match key {
        Key::NamespaceId => append_line(key, digits.format(version.namespace).as_bytes(), text),
        Key::ClusterId => append_line(key, version.cluster.bytes(), text),
        Key::CTime => append_line(key, digits.format(version.ctime).as_bytes(), text),
        Key::StorageType => append_line(key, b"NAME_NODE", text),
        Key::BlockpoolId => append_line(key, version.blockpool.bytes(), text),
        Key::LayoutVersion => append_line(key, digits.format(version.layout).as_bytes(), text),
    }
}

fn append_line(key: Key, value: &[u8], text: &mut Vec<u8>) -> Result<(), NoMemory>
    ensures { OnOk result (text.new.items ≡ text.old.items ++ (front_of key ++ (value.now ++ codes "\n"))) }
{
    text.extend_from_slice(key.name().as_bytes())?;
    text.extend_from_slice(b"=")?;
    text.extend_from_slice(value)?;
    text.extend_from_slice(b"\n")?;
    Ok(())
}
