ghost use Rattle.std.specs.Prelude.{◌≡◌, Bool, IfOk};
ghost use Rattle.http_response.specs.declared.reach.Reach.TheVariants as reaches;
ghost use Rattle.http_response.specs.Steps.{BeginsWithAll, IsBegun, IsProgress, IsSkipped, Sees};

use crate::head::{HeadSeen, read_head};
use crate::reach::Reach;
use http_message::{ChunkReader, Chunked, MAX_BODY, Refusal};
use std::alloc::Global;
use wd_base::{Bytes, NoMemory, Reply, Seq};

/// The last head, which was read, and what was read of the body.
#[derive(Debug, Drop)]
pub struct Begun {
    /// The response is to a HEAD request.
    pub to_head: bool,
    /// The reply without its body.
    pub reply: Reply,
    pub reach: Reach,
    /// How many bytes all heads have.
    pub size: usize,
    /// What was read of a body by chunks.
    pub reader: ChunkReader,
}

/// How far a response was read.
#[derive(Debug, Drop)]
pub enum Progress {
    /// Interim heads of so many bytes.
    Heads(usize),
    /// All heads, and a part of the body.
    Body(Begun),
}

/// What stands at the front of bytes in place of all heads.
#[derive(Debug, Drop)]
pub enum HeadsSeen {
    /// Interim heads of so many bytes, and behind them less than a head.
    Later(usize),
    /// All heads.
    Whole(Begun),
    Refused(Refusal),
}

/// What all bytes of a link show.
#[derive(Debug, Drop)]
pub enum Seen {
    Whole(Reply),
    /// Less than a response, and how far it was read.
    Later(Progress),
    Refused(Refusal),
}

/// Reads the response in all bytes of a link (RFC 9112, section 4), which have ended or not. It goes on
/// where it was read to before.
pub fn read_response(
    alloc: Global,
    bytes: &[u8],
    ended: bool,
    to_head: bool,
    progress: Progress,
) -> Result<Seen, NoMemory>
    requires { IsProgress to_head bytes.now progress }
    ensures { IfOk result (λ seen. Sees to_head ended bytes.now seen) }
{
    match progress {
        Progress::Body(begun) => read_body(alloc, bytes, ended, begun),
        Progress::Heads(at) => match read_heads(alloc, bytes, to_head, at)? {
            HeadsSeen::Later(at) => Ok(Seen::Later(Progress::Heads(at))),
            HeadsSeen::Refused(why) => Ok(Seen::Refused(why)),
            HeadsSeen::Whole(begun) => read_body(alloc, bytes, ended, begun),
        },
    }
}

/// Reads the heads behind interim ones of so many bytes.
fn read_heads(
    alloc: Global,
    bytes: &[u8],
    to_head: bool,
    mut at: usize,
) -> Result<HeadsSeen, NoMemory>
    requires { IsSkipped to_head bytes.now at }
    ensures { IfOk result (λ seen. BeginsWithAll to_head bytes.now seen) }
{
    loop {
        match read_head(alloc, &bytes[at..], at, to_head)? {
            HeadSeen::Later => return Ok(HeadsSeen::Later(at)),
            HeadSeen::Refused(why) => return Ok(HeadsSeen::Refused(why)),
            HeadSeen::Interim(size) => at += size,
            HeadSeen::Last(reply, reach, size) => {
                return Ok(HeadsSeen::Whole(Begun {
                    to_head,
                    reply,
                    reach,
                    size: at + size,
                    reader: ChunkReader::new(alloc),
                }));
            }
        }
    }
}

/// Reads the body behind all heads.
fn read_body(alloc: Global, bytes: &[u8], ended: bool, begun: Begun) -> Result<Seen, NoMemory>
    requires { IsBegun bytes.now begun }
    ensures { IfOk result (λ seen. Sees begun.to_head ended bytes.now seen) }
{
    match begun.reach {
        Reach::Nothing => Ok(Seen::Whole(begun.reply)),
        Reach::Length(size) => read_counted(alloc, bytes, begun, size),
        Reach::Chunked => read_chunked(alloc, bytes, begun),
        Reach::End => read_to_end(alloc, bytes, ended, begun),
    }
}

/// Reads a body of so many bytes.
fn read_counted(alloc: Global, bytes: &[u8], begun: Begun, size: usize) -> Result<Seen, NoMemory>
    requires begun { IsBegun bytes.now begun }
    requires counted { begun.reach ≡ reaches.Length size }
    ensures { (ended : Bool) → IfOk result (λ seen. Sees begun.to_head ended bytes.now seen) }
{
    let rest = &bytes[begun.size..];
    if rest.len() < size {
        return Ok(Seen::Later(Progress::Body(begun)));
    }
    let body = Seq::copy(alloc, &rest[..size])?;
    Ok(Seen::Whole(with_body(begun.reply, body)))
}

/// Reads a body by chunks.
fn read_chunked(alloc: Global, bytes: &[u8], mut begun: Begun) -> Result<Seen, NoMemory>
    requires begun { IsBegun bytes.now begun }
    requires chunked { begun.reach ≡ reaches.Chunked }
    ensures { (ended : Bool) → IfOk result (λ seen. Sees begun.to_head ended bytes.now seen) }
{
    match begun.reader.advance(alloc, &bytes[begun.size..])? {
        Chunked::Later => Ok(Seen::Later(Progress::Body(begun))),
        Chunked::Refused(why) => Ok(Seen::Refused(why)),
        Chunked::Whole(_) => Ok(Seen::Whole(with_body(begun.reply, begun.reader.body))),
    }
}

/// Reads a body up to the end of the bytes.
fn read_to_end(alloc: Global, bytes: &[u8], ended: bool, begun: Begun) -> Result<Seen, NoMemory>
    requires begun { IsBegun bytes.now begun }
    requires ends { begun.reach ≡ reaches.End }
    ensures { IfOk result (λ seen. Sees begun.to_head ended bytes.now seen) }
{
    let rest = &bytes[begun.size..];
    if rest.len() > MAX_BODY {
        return Ok(Seen::Refused(Refusal::TooLarge));
    }
    if !ended {
        return Ok(Seen::Later(Progress::Body(begun)));
    }
    let body = Seq::copy(alloc, rest)?;
    Ok(Seen::Whole(with_body(begun.reply, body)))
}

fn with_body(reply: Reply, body: Bytes) -> Reply
    ensures { result ≡ record reply { body = body } }
{
    Reply {
        status: reply.status,
        fields: reply.fields,
        body,
        why: reply.why,
    }
}
