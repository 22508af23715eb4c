ghost use Rattle.std.specs.Prelude.{◌≡◌, ◌++◌, IfOk, OnOk, flat_map, false, true};
ghost use Rattle.http_text.specs.Fields.{kept_line};
ghost use Rattle.http_text.specs.ReplyText.{status_line, is_interim, is_unsized, is_reset, stated_length};
ghost use Rattle.http_text.specs.ReplyText.{sent_body, head_end, reply_text};

use crate::fields::{push_kept, push_length};
use crate::phrases::phrase;
use std::alloc::Global;
use wd_base::{Bytes, NoMemory, Reply, Seq};

/// A reply's bytes on a link (RFC 9112, sections 4 to 6): `head` where it answers a HEAD request,
/// `close` where the link closes behind it.
///
/// The fields that are of one link alone, and the length, are the server's own: those of the reply
/// are left out.
#[tactic(auto, unfolding(crate::specs::ReplyText::reply_text))]
pub fn reply_text(alloc: Global, reply: &Reply, head: bool, close: bool) -> Result<Bytes, NoMemory>
    ensures { IfOk result (λ text. text ≡ reply_text reply.now head close) }
{
    let mut text = Vec::new(alloc);
    push_status_line(alloc, &mut text, reply.status)?;
    push_fields(&mut text, reply.fields.as_slice())?;
    push_stated_length(alloc, &mut text, reply.status, reply.body.len())?;
    text.extend_from_slice(head_end(close))?;
    text.extend_from_slice(sent_body(reply, head))?;
    Ok(Seq::from_vec(text))
}

fn push_status_line(alloc: Global, text: &mut Vec<u8>, status: u16) -> Result<(), NoMemory>
    ensures { OnOk result (text.new.items ≡ text.old.items ++ status_line status) }
{
    text.extend_from_slice(b"HTTP/1.1 ")?;
    text.extend_from_slice(status.to_string(alloc)?.as_str().as_bytes())?;
    text.extend_from_slice(b" ")?;
    text.extend_from_slice(phrase(status).as_bytes())?;
    text.extend_from_slice(b"\r\n")?;
    Ok(())
}

fn push_fields(text: &mut Vec<u8>, fields: &[(Bytes, Bytes)]) -> Result<(), NoMemory>
    ensures { OnOk result (text.new.items ≡ text.old.items ++ flat_map kept_line fields.now) }
{
    for field in fields {
        push_kept(text, field)?;
    }
    Ok(())
}

fn push_stated_length(
    alloc: Global,
    text: &mut Vec<u8>,
    status: u16,
    size: usize,
) -> Result<(), NoMemory>
    ensures { OnOk result (text.new.items ≡ text.old.items ++ stated_length status size) }
{
    if is_unsized(status) {
        Ok(())
    } else if is_reset(status) {
        push_length(alloc, text, 0)
    } else {
        push_length(alloc, text, size)
    }
}

fn sent_body(reply: &Reply, head: bool) -> &[u8]
    ensures { result.now ≡ sent_body reply.now head }
{
    if head || is_unsized(reply.status) || is_reset(reply.status) {
        b""
    } else {
        reply.body.as_slice()
    }
}

fn head_end(close: bool) -> &'static [u8]
    ensures { result.now ≡ head_end close }
{
    if close {
        b"connection: close\r\n\r\n"
    } else {
        b"\r\n"
    }
}

/// From 100 to 199: another reply follows one of these codes (RFC 9110, section 15.2).
fn is_interim(status: u16) -> bool
    ensures { result ≡ is_interim status }
{
    100 <= status && status < 200
}

/// 204, 304 and those of interim replies: replies of these codes have neither a body nor a length
/// (RFC 9110, section 8.6; RFC 9112, section 6.3).
fn is_unsized(status: u16) -> bool
    ensures { result ≡ is_unsized status }
{
    is_interim(status) || (status == 204 || status == 304)
}

/// 205: a reply of this code has no body, and its length is 0 (RFC 9110, section 15.3.6).
fn is_reset(status: u16) -> bool
    ensures { result ≡ is_reset status }
{
    status == 205
}
