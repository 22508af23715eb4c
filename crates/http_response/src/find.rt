ghost use Rattle.std.specs.Prelude.{◌≡◌, ◌≤◌, length, take, IfOk};
ghost use Rattle.http_message.specs.Limits.{max_head};
ghost use Rattle.http_response.specs.Steps.{IsFoundIn, IsWideIn, IsPastRoom};

use http_message::room;
use httparse::spans::{HeaderSpan, ResponseSpans, parse_response};
use httparse::{Error, Status};
use std::alloc::Global;
use wd_base::NoMemory;

/// What stands at the front of as many bytes as heads have at most.
#[derive(Clone, Copy, Debug, PartialEq, Eq)]
pub enum Found {
    /// A head, whose fields stand in the places that were given.
    Whole(ResponseSpans),
    /// A head of more fields than it may have.
    Many,
    /// Less than a head.
    Later,
    /// What is no head, and becomes none.
    Never,
}

/// Looks for a head, with places for as many fields as it may have.
pub fn find_head(alloc: Global, bytes: &[u8], few: &mut [HeaderSpan]) -> Result<Found, NoMemory>
    requires small { length bytes.now ≤ max_head }
    requires places { length few.old ≡ 64 }
    ensures places { length few.new ≡ 64 }
    ensures found { IfOk result (λ found. IsFoundIn bytes.now few.new found) }
{
    match parse_response(bytes, few) {
        Ok(Status::Complete(head)) => Ok(Found::Whole(head)),
        Ok(Status::Partial) => Ok(Found::Later),
        Err(Error::TooManyHeaders) => find_wide(alloc, bytes),
        Err(_) => Ok(Found::Never),
    }
}

/// Looks for a head that has more fields than it may have, where it is one.
fn find_wide(alloc: Global, bytes: &[u8]) -> Result<Found, NoMemory>
    requires small { length bytes.now ≤ max_head }
    requires many { IsPastRoom bytes.now }
    ensures { IfOk result (λ found. IsWideIn bytes.now found) }
{
    let mut many = room(alloc)?;
    Ok(find_into(bytes, many.as_mut_slice()))
}

/// Looks for a head that has more fields than it may have, with places for each.
fn find_into(bytes: &[u8], many: &mut [HeaderSpan]) -> Found
    requires small { length bytes.now ≤ max_head }
    requires many { IsPastRoom bytes.now }
    requires places { length many.old ≡ 5461 }
    ensures { IsWideIn bytes.now result }
{
    match parse_response(bytes, many) {
        Ok(Status::Complete(_)) => Found::Many,
        Ok(Status::Partial) => Found::Later,
        Err(_) => Found::Never,
    }
}

/// The first bytes, so many or all.
pub fn first(bytes: &[u8], count: usize) -> &[u8]
    ensures { result.now ≡ take count bytes.now }
{
    if bytes.len() > count {
        &bytes[..count]
    } else {
        bytes
    }
}
