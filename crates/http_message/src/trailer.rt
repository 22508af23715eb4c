ghost use Rattle.std.specs.Prelude.{◌≡◌, ◌≤◌, length, take, IfOk};
ghost use Rattle.http_message.specs.Limits.{max_head};
ghost use Rattle.http_message.specs.Steps.{ShowsTrailer};
ghost use Rattle.http_message.specs.Trailers.{IsSectionIn, IsPastRoom};

use crate::extent::Refusal;
use crate::limits::{MAX_FIELDS, MAX_HEAD, ROOM};
use httparse::spans::{EMPTY_HEADER_SPAN, HeaderSpan, parse_headers};
use httparse::{Error, Status};
use std::alloc::Global;
use wd_base::NoMemory;

/// What stands at the front of bytes, where a trailer is to stand.
#[derive(Clone, Copy, Debug, PartialEq, Eq)]
pub enum Trailer {
    /// Less than a trailer.
    Later,
    /// A trailer of so many bytes.
    Whole(usize),
    Refused(Refusal),
}

/// What stands at the front of as many bytes as a trailer has at most.
#[derive(Clone, Copy, Debug, PartialEq, Eq)]
pub enum Section {
    Later,
    /// A section of so many bytes.
    Whole(usize),
    /// A section of more fields than a trailer may have.
    Many,
    /// What is no section, and becomes none.
    Never,
}

/// Reads a trailer (RFC 9112, section 7.1.2), of which nothing is kept.
pub fn read_trailer(alloc: Global, bytes: &[u8]) -> Result<Trailer, NoMemory>
    ensures { IfOk result (λ found. ShowsTrailer bytes.now found) }
{
    Ok(match read_section(alloc, first_bytes(bytes))? {
        Section::Whole(size) => Trailer::Whole(size),
        Section::Many => Trailer::Refused(Refusal::TooLarge),
        Section::Never => Trailer::Refused(Refusal::Malformed),
        Section::Later => {
            if bytes.len() < MAX_HEAD {
                Trailer::Later
            } else {
                Trailer::Refused(Refusal::TooLarge)
            }
        }
    })
}

/// As many of the bytes as a head or a trailer may have.
pub fn first_bytes(bytes: &[u8]) -> &[u8]
    ensures { result.now ≡ take max_head bytes.now }
{
    if bytes.len() > MAX_HEAD {
        &bytes[..MAX_HEAD]
    } else {
        bytes
    }
}

fn read_section(alloc: Global, bytes: &[u8]) -> Result<Section, NoMemory>
    requires { length bytes.now ≤ max_head }
    ensures { IfOk result (λ found. IsSectionIn bytes.now found) }
{
    let mut few = [EMPTY_HEADER_SPAN; MAX_FIELDS];
    match parse_headers(bytes, &mut few) {
        Ok(Status::Complete((size, _))) => Ok(Section::Whole(size)),
        Ok(Status::Partial) => Ok(Section::Later),
        Err(error) => match error {
            Error::TooManyHeaders => read_wide(alloc, bytes),
            _ => Ok(Section::Never),
        },
    }
}

/// Reads a section that has more fields than a trailer may have, where it is one.
fn read_wide(alloc: Global, bytes: &[u8]) -> Result<Section, NoMemory>
    requires small { length bytes.now ≤ max_head }
    requires many { IsPastRoom bytes.now }
    ensures { IfOk result (λ found. IsSectionIn bytes.now found) }
{
    let mut many = room(alloc)?;
    Ok(read_into(bytes, many.as_mut_slice()))
}

/// Reads a section that has more fields than a trailer may have, into places for each.
fn read_into(bytes: &[u8], many: &mut [HeaderSpan]) -> Section
    requires small { length bytes.now ≤ max_head }
    requires many { IsPastRoom bytes.now }
    requires places { length many.old ≡ 5461 }
    ensures { IsSectionIn bytes.now result }
{
    match parse_headers(bytes, many) {
        Ok(Status::Complete(_)) => Section::Many,
        Ok(Status::Partial) => Section::Later,
        Err(_) => Section::Never,
    }
}

/// Places for as many fields as `MAX_HEAD` bytes can have.
pub fn room(alloc: Global) -> Result<Vec<HeaderSpan>, NoMemory>
    ensures { IfOk result (λ spans. length spans.items ≡ 5461) }
{
    let mut spans = Vec::with_capacity(alloc, ROOM)?;
    for _ in 0..ROOM {
        if spans.push(EMPTY_HEADER_SPAN).is_err() {
            return Err(NoMemory);
        }
    }
    Ok(spans)
}
