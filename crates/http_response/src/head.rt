ghost use Rattle.std.specs.Prelude.{Bool, ◌≡◌, ◌≤◌, length, map, All, IfOk, [], take};
ghost use Rattle.httparse.specs.Grammar.{HasNoResponse, MayBecomeResponse, NeverHasResponse};
ghost use Rattle.httparse.specs.Spans.{header_bytes, IsHeaderWithin, IsResponseWithin, IsResponseOf};
ghost use Rattle.http_message.specs.Limits.{max_head, max_fields};
ghost use Rattle.wd_base.specs.declared.http.Why.TheVariants as whys;
ghost use Rattle.http_response.specs.Head.{window};
ghost use Rattle.http_response.specs.Response.{kept_fields};
ghost use Rattle.http_response.specs.Steps.{Accepts, BeginsWith};

use crate::find::{Found, find_head, first};
use crate::reach::{Reach, Told, told_by};
use http_message::{MAX_FIELDS, MAX_HEAD, Refusal};
use http_text::is_own_field;
use httparse::spans::{EMPTY_HEADER_SPAN, HeaderSpan, ResponseSpans};
use std::alloc::Global;
use wd_base::{Fields, NoMemory, Reply, Seq, Why};

/// What stands at the front of bytes, where a head is to stand.
#[derive(Debug, Drop)]
pub enum HeadSeen {
    /// Less than a head.
    Later,
    /// The head of an interim response, of so many bytes.
    Interim(usize),
    /// Another head: the reply without its body, how far the body goes, and how many bytes it has.
    Last(Reply, Reach, usize),
    Refused(Refusal),
}

/// Reads a head (RFC 9112, sections 2.1 and 4) at the front of bytes, with so many bytes of heads
/// before them. The response is to a HEAD request or another.
pub fn read_head(
    alloc: Global,
    bytes: &[u8],
    before: usize,
    to_head: bool,
) -> Result<HeadSeen, NoMemory>
    requires { before ≤ max_head }
    ensures { IfOk result (λ seen. BeginsWith to_head before bytes.now seen) }
{
    let window = first(bytes, MAX_HEAD - before);
    let mut few = [EMPTY_HEADER_SPAN; MAX_FIELDS];
    match find_head(alloc, window, &mut few)? {
        Found::Whole(head) => accept(alloc, window, head, &few[..head.headers], to_head),
        Found::Many => Ok(HeadSeen::Refused(Refusal::TooLarge)),
        Found::Later => Ok(short_of_head(bytes, before)),
        Found::Never => no_head(alloc, bytes, before),
    }
}

/// What bytes show whose first ones begin a head and hold no whole one.
fn short_of_head(bytes: &[u8], before: usize) -> HeadSeen
    requires before { before ≤ max_head }
    requires none { HasNoResponse (window before bytes.now) }
    requires may { MayBecomeResponse (window before bytes.now) }
    ensures { (to_head : Bool) → BeginsWith to_head before bytes.now result }
{
    if bytes.len() < MAX_HEAD - before {
        HeadSeen::Later
    } else {
        HeadSeen::Refused(Refusal::TooLarge)
    }
}

/// What bytes show whose first ones become no head: where the last of these alone shows it, the heads
/// are too large.
fn no_head(alloc: Global, bytes: &[u8], before: usize) -> Result<HeadSeen, NoMemory>
    requires before { before ≤ max_head }
    requires never { NeverHasResponse (window before bytes.now) }
    ensures { (to_head : Bool) → IfOk result (λ seen. BeginsWith to_head before bytes.now seen) }
{
    let room = MAX_HEAD - before;
    if bytes.len() < room {
        return Ok(HeadSeen::Refused(Refusal::Malformed));
    }
    let mut few = [EMPTY_HEADER_SPAN; MAX_FIELDS];
    match find_head(alloc, first(bytes, room.saturating_sub(1)), &mut few)? {
        Found::Later => Ok(HeadSeen::Refused(Refusal::TooLarge)),
        _ => Ok(HeadSeen::Refused(Refusal::Malformed)),
    }
}

/// What a head tells, which the parser found with no more fields than it may have.
fn accept(
    alloc: Global,
    window: &[u8],
    head: ResponseSpans,
    fields: &[HeaderSpan],
    to_head: bool,
) -> Result<HeadSeen, NoMemory>
    requires within { IsResponseWithin window.now fields.now head }
    requires whole { length fields.now ≡ head.headers }
    requires few { head.headers ≤ max_fields }
    requires found { IsResponseOf window.now fields.now head }
    ensures { IfOk result (λ seen. Accepts to_head window.now seen) }
{
    match told_by(to_head, head.code, window, fields) {
        Err(why) => Ok(HeadSeen::Refused(why)),
        Ok(Told::Interim) => Ok(HeadSeen::Interim(head.len)),
        Ok(Told::Last(reach)) => {
            let reply = reply_of(alloc, head.code, window, fields)?;
            Ok(HeadSeen::Last(reply, reach, head.len))
        }
    }
}

/// A reply without a body.
fn reply_of(
    alloc: Global,
    status: u16,
    bytes: &[u8],
    fields: &[HeaderSpan],
) -> Result<Reply, NoMemory>
    requires { All (IsHeaderWithin (length bytes.now)) fields.now }
    ensures { IfOk result (λ r. r ≡ record {
      status = status;
      fields = kept_fields (map (header_bytes bytes.now) fields.now);
      body = [];
      why = whys.Service;
    }) }
{
    let fields = kept_fields(alloc, bytes, fields)?;
    Ok(Reply {
        status,
        fields,
        body: Seq::new(alloc),
        why: Why::Service,
    })
}

/// The fields in order, with small letters in their names, without those that are of one link alone
/// and the length.
fn kept_fields(alloc: Global, bytes: &[u8], fields: &[HeaderSpan]) -> Result<Fields, NoMemory>
    requires { All (IsHeaderWithin (length bytes.now)) fields.now }
    ensures { IfOk result (λ list. list ≡ kept_fields (map (header_bytes bytes.now) fields.now)) }
{
    let mut list = Seq::new(alloc);
    for field in fields {
        let name = Seq::from_vec(field.name.of(bytes).to_ascii_lowercase(alloc)?);
        if !is_own_field(name.as_slice()) {
            let value = Seq::copy(alloc, field.value.of(bytes))?;
            list.push((name, value))?;
        }
    }
    Ok(list)
}
