ghost use Rattle.std.specs.Prelude.{◌≡◌, ℕ, ◌+◌, ◌<◌, ◌≤◌, [], length, drop, IfOk};
ghost use Rattle.http_message.specs.Chunks.{ReadsSize};
ghost use Rattle.http_message.specs.Limits.{max_body};
ghost use Rattle.http_message.specs.Steps.{IsReading, ShowsChunked, ShowsNext, ShowsEnd};

use crate::extent::Refusal;
use crate::limits::MAX_BODY;
use crate::trailer::{Trailer, read_trailer};
use httparse::{Status, parse_chunk_size};
use std::alloc::Global;
use wd_base::{Bytes, NoMemory, Seq};

/// What bytes of a body by chunks show.
#[derive(Clone, Copy, Debug, PartialEq, Eq)]
pub enum Chunked {
    /// Less than a whole body.
    Later,
    /// A whole body, which has so many bytes with its chunk lines and its trailer.
    Whole(usize),
    Refused(Refusal),
}

/// What stands behind whole chunks.
#[derive(Clone, Copy, Debug, PartialEq, Eq)]
pub enum Next {
    Later,
    /// A chunk whose data have these places.
    Chunk(usize, usize),
    /// The last chunk line and a trailer, of so many bytes together.
    Last(usize),
    Refused(Refusal),
}

/// What stands behind the data of a chunk.
#[derive(Clone, Copy, Debug, PartialEq, Eq)]
pub enum End {
    /// Less than CR LF.
    Later,
    /// CR LF.
    Stands,
    /// What is no CR LF, and becomes none.
    Never,
}

/// Reads a body by chunks (RFC 9112, section 7.1) whose bytes come piece by piece: a chunk that was
/// read is not looked at again.
#[derive(Debug, Drop)]
pub struct ChunkReader {
    /// How many bytes the whole chunks have, with their lines.
    pub at: usize,
    /// The data of the whole chunks.
    pub body: Bytes,
}

impl ChunkReader {
    /// A reader that has read nothing. It takes no memory.
    pub fn new(alloc: Global) -> ChunkReader
        ensures { result ≡ record { at = 0; body = [] } }
    {
        ChunkReader {
            at: 0,
            body: Seq::new(alloc),
        }
    }

    /// Goes on with all bytes of the body that are there, those that were read before among them.
    /// For want of memory it may have gone on too.
    pub fn advance(&mut self, alloc: Global, bytes: &[u8]) -> Result<Chunked, NoMemory>
        requires { IsReading bytes.now self.old }
        ensures reading { IsReading bytes.now self.new }
        ensures shown { IfOk result (λ shown. ShowsChunked bytes.now self.new.body shown) }
    {
        loop {
            match next_of(alloc, &bytes[self.at..], self.body.len())? {
                Next::Later => return Ok(Chunked::Later),
                Next::Refused(why) => return Ok(Chunked::Refused(why)),
                Next::Last(size) => return Ok(Chunked::Whole(self.at + size)),
                Next::Chunk(start, end) => {
                    self.body.extend(&bytes[self.at + start..self.at + end])?;
                    self.at += end + 2;
                }
            }
        }
    }
}

/// Reads what stands behind chunks whose data have so many bytes.
fn next_of(alloc: Global, bytes: &[u8], before: usize) -> Result<Next, NoMemory>
    requires { before ≤ max_body }
    ensures { IfOk result (λ next. ShowsNext before bytes.now next) }
{
    match parse_chunk_size(bytes) {
        Err(_) => Ok(Next::Refused(Refusal::Malformed)),
        Ok(Status::Partial) => Ok(Next::Later),
        Ok(Status::Complete((line, size))) => {
            if size == 0 {
                last_of(alloc, bytes, line)
            } else if size > (MAX_BODY - before) as u64 {
                Ok(Next::Refused(Refusal::TooLarge))
            } else {
                Ok(chunk_of(bytes, line, size as usize, before))
            }
        }
    }
}

/// Reads a chunk whose line, which has this size, ends at this place.
fn chunk_of(bytes: &[u8], line: usize, size: usize, before: usize) -> Next
    requires some { 0 < size }
    requires fits { before + size ≤ max_body }
    requires within { line ≤ length bytes.now }
    requires reads { ReadsSize bytes.now size (drop line bytes.now) }
    ensures { ShowsNext before bytes.now result }
{
    let rest = &bytes[line..];
    if rest.len() < size {
        return Next::Later;
    }
    match end_of(&rest[size..]) {
        End::Later => Next::Later,
        End::Stands => Next::Chunk(line, line + size),
        End::Never => Next::Refused(Refusal::Malformed),
    }
}

/// Looks for the CR LF behind the data of a chunk.
fn end_of(bytes: &[u8]) -> End
    ensures { ShowsEnd bytes.now result }
{
    if bytes.is_empty() {
        return End::Later;
    }
    if bytes[0] != b'\r' {
        return End::Never;
    }
    if bytes.len() == 1 {
        return End::Later;
    }
    if bytes[1] == b'\n' {
        End::Stands
    } else {
        End::Never
    }
}

/// Reads a trailer behind a last chunk line that ends at this place.
fn last_of(alloc: Global, bytes: &[u8], line: usize) -> Result<Next, NoMemory>
    requires within { line ≤ length bytes.now }
    requires reads { ReadsSize bytes.now 0 (drop line bytes.now) }
    ensures { (before : ℕ) → before ≤ max_body → IfOk result (λ next. ShowsNext before bytes.now next) }
{
    Ok(match read_trailer(alloc, &bytes[line..])? {
        Trailer::Later => Next::Later,
        Trailer::Whole(size) => Next::Last(line + size),
        Trailer::Refused(why) => Next::Refused(why),
    })
}
