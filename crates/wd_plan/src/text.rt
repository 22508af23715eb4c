ghost use Rattle.std.specs.Prelude.{◌≡◌, ◌++◌, IfOk};

use std::alloc::Global;
use wd_base::NoMemory;

/// Bytes between two others.
pub fn framed(
    alloc: Global,
    before: &[u8],
    middle: &[u8],
    behind: &[u8],
) -> Result<Vec<u8>, NoMemory>
    ensures { IfOk result (λ text. text.items ≡ before.now ++ (middle.now ++ behind.now)) }
{
    let mut text = Vec::from_slice(alloc, before)?;
    text.extend_from_slice(middle)?;
    text.extend_from_slice(behind)?;
    Ok(text)
}
