ghost use Rattle.std.specs.Prelude.{◌≡◌, ◌≤◌, ◌++◌, length, map, All, IfOk, None, codes};
ghost use Rattle.httparse.specs.Grammar.{HasNoRequest, MayBecomeRequest, NeverHasRequest};
ghost use Rattle.httparse.specs.Spans.{header_bytes, span_bytes, IsHeaderWithin, IsWithin, IsRequestWithin, IsRequestOf};
ghost use Rattle.http_message.specs.Fields.{values_of};
ghost use Rattle.http_message.specs.Limits.{max_fields};
ghost use Rattle.http_in.specs.Head.{url_by, url_bytes, url_of_bytes, window};
ghost use Rattle.http_in.specs.Steps.{BeginsWith, Accepts, IsHeadPastRoom};
ghost use Rattle.http_in.specs.Stream.{small_names};

use crate::request::Begun;
use crate::target::ends_in_target;
use http_message::{
    ChunkReader, Extent, Found, MAX_FIELDS, MAX_HEAD, Refusal, closes, extent_of, find_field,
    first_bytes, room,
};
use httparse::spans::{EMPTY_HEADER_SPAN, HeaderSpan, RequestSpans, Span, parse_request};
use httparse::{Error, Status};
use std::alloc::Global;
use wd_base::{Bytes, Fields, NoMemory, ReqData, Seq};
use wd_url::url_text;

/// What stands at the front of bytes, where a head is to stand.
#[derive(Debug, Drop)]
pub enum HeadSeen {
    /// Less than a head.
    Later,
    /// A head.
    Whole(Begun),
    Refused(Refusal),
}

/// Reads a head (RFC 9112, section 2.1) at the front of bytes.
pub fn read_head(alloc: Global, bytes: &[u8]) -> Result<HeadSeen, NoMemory>
    ensures { IfOk result (λ found. BeginsWith bytes.now found) }
{
    let window = first_bytes(bytes);
    let mut few = [EMPTY_HEADER_SPAN; MAX_FIELDS];
    match parse_request(window, &mut few) {
        Ok(Status::Complete(head)) => accept(alloc, bytes, head, &few[..head.headers]),
        Ok(Status::Partial) => Ok(short_of_head(bytes)),
        Err(Error::TooManyHeaders) => read_wide(alloc, bytes),
        Err(_) => Ok(no_head(bytes)),
    }
}

/// Reads a head that has more fields than it may have, where it is one.
fn read_wide(alloc: Global, bytes: &[u8]) -> Result<HeadSeen, NoMemory>
    requires many { IsHeadPastRoom (window bytes.now) }
    ensures { IfOk result (λ found. BeginsWith bytes.now found) }
{
    let mut many = room(alloc)?;
    Ok(
        match parse_request(first_bytes(bytes), many.as_mut_slice()) {
            Ok(Status::Complete(_)) => HeadSeen::Refused(Refusal::TooLarge),
            Ok(Status::Partial) => short_of_head(bytes),
            Err(_) => no_head(bytes),
        },
    )
}

/// What bytes show whose first ones begin a head and hold no whole one.
fn short_of_head(bytes: &[u8]) -> HeadSeen
    requires none { HasNoRequest (window bytes.now) }
    requires may { MayBecomeRequest (window bytes.now) }
    ensures { BeginsWith bytes.now result }
{
    if bytes.len() < MAX_HEAD {
        HeadSeen::Later
    } else {
        HeadSeen::Refused(Refusal::TooLarge)
    }
}

/// What bytes show whose first ones become no head.
fn no_head(bytes: &[u8]) -> HeadSeen
    requires { NeverHasRequest (window bytes.now) }
    ensures { BeginsWith bytes.now result }
{
    if ends_in_target(first_bytes(bytes)) {
        short_of_head(bytes)
    } else {
        HeadSeen::Refused(Refusal::Malformed)
    }
}

/// What a head asks, which the parser found with no more fields than it may have.
fn accept(
    alloc: Global,
    bytes: &[u8],
    head: RequestSpans,
    fields: &[HeaderSpan],
) -> Result<HeadSeen, NoMemory>
    requires within { IsRequestWithin (window bytes.now) fields.now head }
    requires whole { length fields.now ≡ head.headers }
    requires few { head.headers ≤ max_fields }
    requires found { IsRequestOf (window bytes.now) fields.now head }
    ensures { IfOk result (λ found. Accepts bytes.now found) }
{
    let window = first_bytes(bytes);
    let url = match url_of(alloc, window, head.path, fields)? {
        Some(url) => url,
        None => return Ok(HeadSeen::Refused(Refusal::Malformed)),
    };
    let extent = match extent_of(window, fields) {
        Ok(extent) => extent,
        Err(why) => return Ok(HeadSeen::Refused(why)),
    };
    let request = request_of(alloc, head.method.of(window), url, window, fields)?;
    Ok(HeadSeen::Whole(Begun {
        request,
        close: closes(head.version, window, fields),
        extent,
        size: head.len,
        reader: ChunkReader::new(alloc),
    }))
}

/// The text of the URL of a head with this target and these fields, where there is one.
fn url_of(
    alloc: Global,
    bytes: &[u8],
    target: Span,
    fields: &[HeaderSpan],
) -> Result<Option<Bytes>, NoMemory>
    requires within { All (IsHeaderWithin (length bytes.now)) fields.now }
    requires target { IsWithin (length bytes.now) target }
    ensures { IfOk result (λ url. url ≡ url_by (values_of (codes "host") (map (header_bytes bytes.now) fields.now))
        (span_bytes bytes.now target)) }
{
    match find_field(bytes, fields, b"host") {
        Found::Once(host) => url_at(alloc, host.of(bytes), target.of(bytes)),
        Found::Absent => Ok(None),
        Found::Again => Ok(None),
    }
}

fn url_at(alloc: Global, host: &[u8], target: &[u8]) -> Result<Option<Bytes>, NoMemory>
    ensures { IfOk result (λ url. url ≡ url_of_bytes (url_bytes host.now target.now)) }
{
    if target.starts_with(b"http://") {
        url_text(alloc, target)
    } else if target.starts_with(b"/") {
        let text = joined(alloc, host, target)?;
        url_text(alloc, text.as_slice())
    } else {
        Ok(None)
    }
}

fn joined(alloc: Global, host: &[u8], target: &[u8]) -> Result<Vec<u8>, NoMemory>
    ensures { IfOk result (λ text. text.items ≡ codes "http://" ++ (host.now ++ target.now)) }
{
    let mut text = Vec::from_slice(alloc, b"http://")?;
    text.extend_from_slice(host)?;
    text.extend_from_slice(target)?;
    Ok(text)
}

/// A request without a body.
fn request_of(
    alloc: Global,
    method: &[u8],
    url: Bytes,
    bytes: &[u8],
    fields: &[HeaderSpan],
) -> Result<ReqData, NoMemory>
    requires { All (IsHeaderWithin (length bytes.now)) fields.now }
    ensures { IfOk result (λ r. r ≡ record {
      method = method.now;
      url = url;
      fields = small_names (map (header_bytes bytes.now) fields.now);
      body = None;
    }) }
{
    let method = Seq::copy(alloc, method)?;
    let fields = fields_of(alloc, bytes, fields)?;
    Ok(ReqData {
        method,
        url,
        fields,
        body: None,
    })
}

/// The fields in order, with small letters in their names.
fn fields_of(alloc: Global, bytes: &[u8], fields: &[HeaderSpan]) -> Result<Fields, NoMemory>
    requires { All (IsHeaderWithin (length bytes.now)) fields.now }
    ensures { IfOk result (λ list. list ≡ small_names (map (header_bytes bytes.now) fields.now)) }
{
    let mut list = Seq::new(alloc);
    for field in fields {
        let name = Seq::from_vec(field.name.of(bytes).to_ascii_lowercase(alloc)?);
        let value = Seq::copy(alloc, field.value.of(bytes))?;
        list.push((name, value))?;
    }
    Ok(list)
}
