ghost use Rattle.std.specs.Prelude.{◌≡◌, ◌<◌, length, map, All};
ghost use Rattle.httparse.specs.Spans.{header_bytes, IsHeaderWithin};
ghost use Rattle.http_response.specs.Head.{is_interim, is_bodiless, reach_of, field_reach, told_by};

use http_message::{Extent, Found, Refusal, extent_of, find_field, is_word};
use httparse::spans::HeaderSpan;

/// How far the body of a response goes.
#[derive(Clone, Copy, Debug, PartialEq, Eq)]
pub enum Reach {
    /// There is none.
    Nothing,
    /// So many bytes.
    Length(usize),
    /// By chunks.
    Chunked,
    /// Up to the end of the bytes.
    End,
}

/// What a head tells of what stands behind it.
#[derive(Clone, Copy, Debug, PartialEq, Eq)]
pub enum Told {
    /// Another head: this one is of an interim response.
    Interim,
    /// The body.
    Last(Reach),
}

/// What a head of this status with these fields tells, where the response is to a HEAD request or
/// another, or why its fields are refused (RFC 9110, section 15.2; RFC 9112, section 6.3).
pub fn told_by(
    to_head: bool,
    status: u16,
    bytes: &[u8],
    fields: &[HeaderSpan],
) -> Result<Told, Refusal>
    requires { All (IsHeaderWithin (length bytes.now)) fields.now }
    ensures { result ≡ told_by to_head status (map (header_bytes bytes.now) fields.now) }
{
    if is_interim(status) {
        return Ok(Told::Interim);
    }
    if is_bodiless(to_head, status) {
        return Ok(Told::Last(Reach::Nothing));
    }
    match field_reach(bytes, fields) {
        Ok(reach) => Ok(Told::Last(reach)),
        Err(why) => Err(why),
    }
}

fn is_interim(status: u16) -> bool
    ensures { result ≡ is_interim status }
{
    100 <= status && status < 200
}

fn is_bodiless(to_head: bool, status: u16) -> bool
    ensures { result ≡ is_bodiless to_head status }
{
    to_head || status == 204 || status == 304
}

/// How far a body goes by the fields of its head: a Transfer-Encoding counts before a
/// Content-Length.
#[tactic(auto, unfolding(crate::specs::Head::field_reach))]
fn field_reach(bytes: &[u8], fields: &[HeaderSpan]) -> Result<Reach, Refusal>
    requires { All (IsHeaderWithin (length bytes.now)) fields.now }
    ensures { result ≡ field_reach (map (header_bytes bytes.now) fields.now) }
{
    match find_field(bytes, fields, b"transfer-encoding") {
        Found::Absent => reach_of(extent_of(bytes, fields)),
        Found::Once(coding) => {
            if is_word(b"chunked", coding.of(bytes)) {
                Ok(Reach::Chunked)
            } else {
                Err(Refusal::Malformed)
            }
        }
        Found::Again => Err(Refusal::Malformed),
    }
}

fn reach_of(extent: Result<Extent, Refusal>) -> Result<Reach, Refusal>
    ensures { result ≡ reach_of extent }
{
    match extent {
        Ok(Extent::Nothing) => Ok(Reach::End),
        Ok(Extent::Length(size)) => Ok(Reach::Length(size)),
        Ok(Extent::Chunked) => Ok(Reach::Chunked),
        Err(why) => Err(why),
    }
}
