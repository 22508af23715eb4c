ghost use Rattle.std.specs.Prelude.{◌≡◌, ◌≤◌, length, drop, IfOk, None, Some};
ghost use Rattle.http_message.specs.declared.extent.Extent.TheVariants as extents;
ghost use Rattle.http_in.specs.Steps.{IsBegun, MayBegin, Sees};

use crate::head::{HeadSeen, read_head};
use http_message::{ChunkReader, Chunked, Extent, Refusal};
use std::alloc::Global;
use wd_base::{Bytes, NoMemory, ReqData, Seq};

/// A head that was read, and what was read of its body.
#[derive(Debug, Drop)]
pub struct Begun {
    /// The request without its body.
    pub request: ReqData,
    /// The link is closed behind it.
    pub close: bool,
    pub extent: Extent,
    /// How many bytes the head has.
    pub size: usize,
    /// What was read of a body by chunks.
    pub reader: ChunkReader,
}

/// What stands at the front of bytes.
#[derive(Debug, Drop)]
pub enum Seen {
    /// A request, whether the link is closed behind it, and how many bytes it has.
    Whole(ReqData, bool, usize),
    /// Less than a request, and its head where it was read.
    Later(Option<Begun>),
    Refused(Refusal),
}

/// Reads a request off the front of bytes (RFC 9112), whose head may have been read before.
pub fn next_request(alloc: Global, bytes: &[u8], begun: Option<Begun>) -> Result<Seen, NoMemory>
    requires { MayBegin bytes.now begun }
    ensures { IfOk result (λ seen. Sees bytes.now seen) }
{
    match begun {
        Some(begun) => read_body(alloc, bytes, begun),
        None => match read_head(alloc, bytes)? {
            HeadSeen::Later => Ok(Seen::Later(None)),
            HeadSeen::Refused(why) => Ok(Seen::Refused(why)),
            HeadSeen::Whole(begun) => read_body(alloc, bytes, begun),
        },
    }
}

/// Reads the body behind a head.
fn read_body(alloc: Global, bytes: &[u8], begun: Begun) -> Result<Seen, NoMemory>
    requires { IsBegun bytes.now begun }
    ensures { IfOk result (λ seen. Sees bytes.now seen) }
{
    match begun.extent {
        Extent::Nothing => Ok(Seen::Whole(begun.request, begun.close, begun.size)),
        Extent::Length(size) => read_counted(alloc, bytes, begun, size),
        Extent::Chunked => read_chunked(alloc, bytes, begun),
    }
}

/// Reads a body of so many bytes.
fn read_counted(alloc: Global, bytes: &[u8], begun: Begun, size: usize) -> Result<Seen, NoMemory>
    requires begun { IsBegun bytes.now begun }
    requires counted { begun.extent ≡ extents.Length size }
    ensures { IfOk result (λ seen. Sees bytes.now seen) }
{
    let rest = &bytes[begun.size..];
    if rest.len() < size {
        return Ok(Seen::Later(Some(begun)));
    }
    let body = Seq::copy(alloc, &rest[..size])?;
    let end = begun.size + size;
    Ok(Seen::Whole(with_body(begun.request, body), begun.close, end))
}

/// Reads a body by chunks.
fn read_chunked(alloc: Global, bytes: &[u8], mut begun: Begun) -> Result<Seen, NoMemory>
    requires begun { IsBegun bytes.now begun }
    requires chunked { begun.extent ≡ extents.Chunked }
    ensures { IfOk result (λ seen. Sees bytes.now seen) }
{
    match begun.reader.advance(alloc, &bytes[begun.size..])? {
        Chunked::Later => Ok(Seen::Later(Some(begun))),
        Chunked::Refused(why) => Ok(Seen::Refused(why)),
        Chunked::Whole(size) => {
            let end = begun.size + size;
            Ok(Seen::Whole(
                with_body(begun.request, begun.reader.body),
                begun.close,
                end,
            ))
        }
    }
}

fn with_body(request: ReqData, body: Bytes) -> ReqData
    ensures { result ≡ record request { body = Some body } }
{
    ReqData {
        method: request.method,
        url: request.url,
        fields: request.fields,
        body: Some(body),
    }
}
