//! How numbers and fields are spelled as bytes, and the checksum over them: each value has one text, and each text at
//! most one reading.
//! It knows nothing of what the fields of a message are, nor of any file.
#![tactic(auto)]

mod checksum;
mod fault;
mod field;
mod table;
mod varint;

pub use checksum::crc32;
pub use fault::WireFault;
pub use field::{Field, field_get};
pub use varint::{varint_get, varint_put};
