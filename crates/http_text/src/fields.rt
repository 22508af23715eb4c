ghost use Rattle.std.specs.Prelude.{◌≡◌, ◌++◌, OnOk};
ghost use Rattle.http_text.specs.Fields.{is_own_field, field_line, kept_line, length_line};

use std::alloc::Global;
use wd_base::{Bytes, NoMemory};

/// Adds the line of a message's own field, unless the server writes that field itself.
pub fn push_kept(text: &mut Vec<u8>, field: &(Bytes, Bytes)) -> Result<(), NoMemory>
    ensures { OnOk result (text.new.items ≡ text.old.items ++ kept_line field.now) }
{
    if is_own_field(field.0.as_slice()) {
        Ok(())
    } else {
        push_field(text, field.0.as_slice(), field.1.as_slice())
    }
}

/// Adds a field line (RFC 9112, section 5).
pub fn push_field(text: &mut Vec<u8>, name: &[u8], value: &[u8]) -> Result<(), NoMemory>
    ensures { OnOk result (text.new.items ≡ text.old.items ++ field_line (name.now, value.now)) }
{
    text.extend_from_slice(name)?;
    text.extend_from_slice(b": ")?;
    text.extend_from_slice(value)?;
    text.extend_from_slice(b"\r\n")?;
    Ok(())
}

/// Adds the line that states how many bytes the body has.
pub fn push_length(alloc: Global, text: &mut Vec<u8>, size: usize) -> Result<(), NoMemory>
    ensures { OnOk result (text.new.items ≡ text.old.items ++ length_line size) }
{
    text.extend_from_slice(b"content-length: ")?;
    text.extend_from_slice(size.to_string(alloc)?.as_str().as_bytes())?;
    text.extend_from_slice(b"\r\n")?;
    Ok(())
}

/// The field is of one link alone (RFC 9110, section 7.6.1) or states the length.
#[tactic(auto, unfolding(crate::specs::Fields::is_own_field))]
pub fn is_own_field(name: &[u8]) -> bool
    ensures { result ≡ is_own_field name.now }
{
    name == b"connection".as_slice()
        || name == b"keep-alive".as_slice()
        || name == b"proxy-connection".as_slice()
        || name == b"te".as_slice()
        || name == b"trailer".as_slice()
        || name == b"transfer-encoding".as_slice()
        || name == b"upgrade".as_slice()
        || name == b"content-length".as_slice()
}
