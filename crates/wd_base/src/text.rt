ghost use Rattle.std.specs.Prelude.{◌≡◌, ◌++◌, IfOk, OnOk, flat_map};
ghost use Rattle.std.specs.Fmt.{signed_decimal};
ghost use Rattle.std.specs.Str.{chars, encode_utf8_all};
ghost use Rattle.std.specs.Char.Escape.{encode_utf16};
ghost use Rattle.std.specs.Char.Utf16.{utf16_lossy_chars};
ghost use Rattle.wd_base.specs.Text.{utf16_of, unmarked};

use crate::http::{Bytes, Units};
use crate::ids::NoMemory;
use crate::seq::Seq;
use std::alloc::Global;

/// The UTF-16 of UTF-8 bytes, without one leading byte order mark, and with U+FFFD for each
/// sequence that is not UTF-8 (as the Encoding Standard's "UTF-8 decode").
pub fn units_of(alloc: Global, bytes: &[u8]) -> Result<Units, NoMemory>
    ensures { IfOk result (λ units. units ≡ utf16_of bytes.now) }
{
    let text = String::from_utf8_lossy(alloc, without_mark(bytes))?;
    encoded(alloc, text.as_str())
}

/// The UTF-8 of UTF-16 units, each lone surrogate as U+FFFD.
pub fn bytes_of(alloc: Global, units: &Units) -> Result<Bytes, NoMemory>
    ensures { IfOk result (λ bytes. bytes ≡ encode_utf8_all (utf16_lossy_chars units.now)) }
{
    let text = String::from_utf16_lossy(alloc, units.as_slice())?;
    Ok(Seq::from_vec(text.into_bytes()))
}

/// The shortest decimal text of a number, with `-` before a negative one.
pub fn decimal(alloc: Global, n: i64) -> Result<Bytes, NoMemory>
    ensures { IfOk result (λ text. text ≡ signed_decimal n) }
{
    let text = n.to_string(alloc)?;
    Ok(Seq::from_vec(text.into_bytes()))
}

fn without_mark(bytes: &[u8]) -> &[u8]
    ensures { result.now ≡ unmarked bytes.now }
{
    match bytes.strip_prefix(b"\xEF\xBB\xBF") {
        Some(rest) => rest,
        None => bytes,
    }
}

fn encoded(alloc: Global, text: &str) -> Result<Units, NoMemory>
    ensures { IfOk result (λ units. units ≡ flat_map encode_utf16 (chars text.now)) }
{
    let mut units = Vec::with_capacity(alloc, text.len())?;
    for c in text.chars() {
        push_units(&mut units, c)?;
    }
    Ok(Seq::from_vec(units))
}

fn push_units(units: &mut Vec<u16>, c: char) -> Result<(), NoMemory>
    ensures { OnOk result (units.new.items ≡ units.old.items ++ encode_utf16 c) }
{
    let mut pair = [0; 2];
    units.extend_from_slice(c.encode_utf16(&mut pair))?;
    Ok(())
}
