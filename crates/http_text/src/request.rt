ghost use Rattle.std.specs.Prelude.{◌≡◌, ◌++◌, IfOk, OnOk, flat_map};
ghost use Rattle.http_text.specs.RequestText.{destination, target, host, request_line, host_line, request_field};
ghost use Rattle.http_text.specs.RequestText.{body_length, last_lines, body_bytes, head_to, text_to, request_text};

use crate::fields::{push_field, push_kept, push_length};
use std::alloc::Global;
use wd_base::{Bytes, NoMemory, ReqData, Seq};
use wd_url::{Url, host_and_port, parse, path_and_query};

/// A request's bytes on a link of its own, which the other side closes behind its reply (RFC 9112,
/// sections 3, 5, 6 and 9.6).
///
/// The Host field is of the URL; the path and the host are empty where the URL does not parse or has
/// no host. The fields that are of one link alone, and the length, are the server's own.
#[tactic(auto, unfolding(crate::specs::RequestText::request_text))]
pub fn request_text(alloc: Global, request: &ReqData) -> Result<Bytes, NoMemory>
    ensures { IfOk result (λ text. text ≡ request_text request.now) }
{
    let url = destination(alloc, request.url.as_slice())?;
    text_to(alloc, &url, request)
}

fn text_to(alloc: Global, url: &Option<Url>, request: &ReqData) -> Result<Bytes, NoMemory>
    ensures { IfOk result (λ text. text ≡ text_to url.now request.now) }
{
    let mut text = Vec::new(alloc);
    push_head(alloc, &mut text, url, request)?;
    text.extend_from_slice(body_bytes(&request.body))?;
    Ok(Seq::from_vec(text))
}

#[tactic(auto, unfolding(crate::specs::RequestText::head_to))]
fn push_head(
    alloc: Global,
    text: &mut Vec<u8>,
    url: &Option<Url>,
    request: &ReqData,
) -> Result<(), NoMemory>
    ensures { OnOk result (text.new.items ≡ text.old.items ++ head_to url.now request.now) }
{
    push_request_line(text, request.method.as_slice(), target(url))?;
    push_host(text, host(url))?;
    push_fields(text, request.fields.as_slice())?;
    push_body_length(alloc, text, &request.body)?;
    text.extend_from_slice(last_lines())?;
    Ok(())
}

#[tactic(auto, unfolding(crate::specs::RequestText::host_line))]
fn push_host(text: &mut Vec<u8>, name: &str) -> Result<(), NoMemory>
    ensures { OnOk result (text.new.items ≡ text.old.items ++ host_line name.now) }
{
    push_field(text, b"host", name.as_bytes())
}

#[tactic(auto, unfolding(crate::specs::RequestText::last_lines))]
fn last_lines() -> &'static [u8]
    ensures { result.now ≡ last_lines }
{
    b"connection: close\r\n\r\n"
}

/// The URL that bytes spell, where it has a host.
fn destination(alloc: Global, bytes: &[u8]) -> Result<Option<Url>, NoMemory>
    ensures { IfOk result (λ url. url ≡ destination bytes.now) }
{
    match parse(alloc, bytes)? {
        Some(url) => Ok(if url.has_host() { Some(url) } else { None }),
        None => Ok(None),
    }
}

fn target(url: &Option<Url>) -> &str
    ensures { result.now ≡ target url.now }
{
    match url {
        Some(url) => path_and_query(url),
        None => "",
    }
}

fn host(url: &Option<Url>) -> &str
    ensures { result.now ≡ host url.now }
{
    match url {
        Some(url) => host_and_port(url),
        None => "",
    }
}

#[tactic(auto, unfolding(crate::specs::RequestText::request_line))]
fn push_request_line(text: &mut Vec<u8>, method: &[u8], path: &str) -> Result<(), NoMemory>
    ensures { OnOk result (text.new.items ≡ text.old.items ++ request_line method.now path.now) }
{
    text.extend_from_slice(method)?;
    text.extend_from_slice(b" ")?;
    text.extend_from_slice(path.as_bytes())?;
    text.extend_from_slice(b" HTTP/1.1\r\n")?;
    Ok(())
}

fn push_fields(text: &mut Vec<u8>, fields: &[(Bytes, Bytes)]) -> Result<(), NoMemory>
    ensures { OnOk result (text.new.items ≡ text.old.items ++ flat_map request_field fields.now) }
{
    for field in fields {
        push_request_field(text, field)?;
    }
    Ok(())
}

fn push_request_field(text: &mut Vec<u8>, field: &(Bytes, Bytes)) -> Result<(), NoMemory>
    ensures { OnOk result (text.new.items ≡ text.old.items ++ request_field field.now) }
{
    if field.0.as_slice() == b"host".as_slice() {
        Ok(())
    } else {
        push_kept(text, field)
    }
}

fn push_body_length(alloc: Global, text: &mut Vec<u8>, body: &Option<Bytes>) -> Result<(), NoMemory>
    ensures { OnOk result (text.new.items ≡ text.old.items ++ body_length body.now) }
{
    match body {
        Some(body) => push_length(alloc, text, body.len()),
        None => Ok(()),
    }
}

fn body_bytes(body: &Option<Bytes>) -> &[u8]
    ensures { result.now ≡ body_bytes body.now }
{
    match body {
        Some(body) => body.as_slice(),
        None => b"",
    }
}
