ghost use Rattle.std.specs.Prelude.{◌≡◌, IfOk};
ghost use Rattle.wd_url.specs.Url.{url_of, url_of_text, url_text};

use std::alloc::Global;
use std::str;
use url::{ParseError, Url};
use wd_base::{Bytes, NoMemory, Seq};

/// The URL that bytes spell, or None where they are not UTF-8 or are no absolute URL (URL Standard,
/// section 4.4).
#[tactic(auto, using(crate::proofs::Bytes::of_utf8, crate::proofs::Bytes::of_others))]
pub fn parse(alloc: Global, bytes: &[u8]) -> Result<Option<Url>, NoMemory>
    ensures { IfOk result (λ found. found ≡ url_of bytes.now) }
{
    match str::from_utf8(bytes) {
        Ok(text) => parse_text(alloc, text),
        Err(_) => Ok(None),
    }
}

/// The text of the URL that bytes spell (URL Standard, section 4.5), or None where they spell none.
pub fn url_text(alloc: Global, bytes: &[u8]) -> Result<Option<Bytes>, NoMemory>
    ensures { IfOk result (λ found. found ≡ url_text bytes.now) }
{
    match parse(alloc, bytes)? {
        Some(url) => Ok(Some(Seq::copy(alloc, url.as_str().as_bytes())?)),
        None => Ok(None),
    }
}

#[tactic(auto, unfolding(crate::specs::Url::url_of_text))]
fn parse_text(alloc: Global, text: &str) -> Result<Option<Url>, NoMemory>
    ensures { IfOk result (λ found. found ≡ url_of_text text.now) }
{
    match Url::parse(alloc, text) {
        Ok(url) => Ok(Some(url)),
        Err(ParseError::OutOfMemory) => Err(NoMemory),
        Err(ParseError::Overflow) => Err(NoMemory),
        Err(_) => Ok(None),
    }
}
