ghost use Rattle.std.specs.Prelude.{◌≡◌, IfOk};
ghost use Rattle.http_text.specs.ReplyText.{phrase_of, bad_reply};

use http::StatusCode;
use std::alloc::Global;
use wd_base::{NoMemory, Reply, Seq, Why};

/// The phrase of a status code (RFC 9110, section 15), or the empty text for a code that has none.
#[tactic(auto, unfolding(crate::specs::ReplyText::phrase_of))]
pub fn phrase(status: u16) -> &'static str
    ensures { result.now ≡ phrase_of status }
{
    match StatusCode::from_u16(status) {
        Ok(code) => match code.canonical_reason() {
            Some(text) => text,
            None => "",
        },
        Err(_) => "",
    }
}

/// The reply whose text is the phrase of its status code: the server's own answer to bytes that it
/// refuses, or for a service that gives no reply.
pub fn bad_reply(alloc: Global, status: u16) -> Result<Reply, NoMemory>
    ensures { IfOk result (λ reply. reply ≡ bad_reply status) }
{
    let body = Seq::copy(alloc, phrase(status).as_bytes())?;
    let name = Seq::copy(alloc, b"content-type")?;
    let value = Seq::copy(alloc, b"text/plain;charset=UTF-8")?;
    let mut fields = Seq::new(alloc);
    fields.push((name, value))?;
    Ok(Reply {
        status,
        fields,
        body,
        why: Why::Service,
    })
}
