ghost use Rattle.std.specs.Prelude.{◌≡◌, true, false, length, map, All, MatchOption};
ghost use Rattle.std.specs.Str.Parse.{digits_value};
ghost use Rattle.httparse.specs.Spans.{header_bytes, IsHeaderWithin};
ghost use Rattle.http_message.specs.Extents.{extent_of, by_length, by_coding, is_number, IsNumberUpTo};
ghost use Rattle.http_message.specs.Limits.{max_body};

use crate::fields::{Found, find_field, is_word};
use crate::limits::MAX_BODY;
use httparse::spans::HeaderSpan;

/// How far a body goes.
#[derive(Clone, Copy, Debug, PartialEq, Eq)]
pub enum Extent {
    /// There is none.
    Nothing,
    /// So many bytes.
    Length(usize),
    /// By chunks.
    Chunked,
}

/// Why a message is refused.
#[derive(Clone, Copy, Debug, PartialEq, Eq)]
pub enum Refusal {
    /// It is none of the grammar.
    Malformed,
    /// It passes a limit.
    TooLarge,
}

/// How far the body goes behind a head with these fields, and why they are refused (RFC 9112,
/// section 6.3). At most one Content-Length or Transfer-Encoding may stand.
#[tactic(auto, unfolding(crate::specs::Extents::extent_of))]
pub fn extent_of(bytes: &[u8], fields: &[HeaderSpan]) -> Result<Extent, Refusal>
    requires { All (IsHeaderWithin (length bytes.now)) fields.now }
    ensures { result ≡ extent_of (map (header_bytes bytes.now) fields.now) }
{
    let length = find_field(bytes, fields, b"content-length");
    let coding = find_field(bytes, fields, b"transfer-encoding");
    match (length, coding) {
        (Found::Absent, Found::Absent) => Ok(Extent::Nothing),
        (Found::Once(value), Found::Absent) => by_length(value.of(bytes)),
        (Found::Absent, Found::Once(value)) => by_coding(value.of(bytes)),
        _ => Err(Refusal::Malformed),
    }
}

/// A Content-Length is digits, and no more than `MAX_BODY`.
fn by_length(value: &[u8]) -> Result<Extent, Refusal>
    ensures { result ≡ by_length value.now }
{
    match number_of(value) {
        None => Err(Refusal::Malformed),
        Some(length) => {
            if length <= MAX_BODY {
                Ok(Extent::Length(length))
            } else {
                Err(Refusal::TooLarge)
            }
        }
    }
}

/// The number that a text of digits writes, or one above `MAX_BODY` where it is above that. None
/// where the text is not one digit or more.
fn number_of(text: &[u8]) -> Option<usize>
    ensures { MatchOption result (is_number text.now ≡ false)
        (λ n. (is_number text.now ≡ true) × IsNumberUpTo max_body (digits_value 10 text.now) n) }
{
    if text.is_empty() {
        return None;
    }
    let mut number: usize = 0;
    for digit in text {
        if !digit.is_ascii_digit() {
            return None;
        }
        if number <= MAX_BODY {
            number = number * 10 + (*digit - b'0') as usize;
        }
    }
    Some(number)
}

fn by_coding(value: &[u8]) -> Result<Extent, Refusal>
    ensures { result ≡ by_coding value.now }
{
    if is_word(b"chunked", value) {
        Ok(Extent::Chunked)
    } else {
        Err(Refusal::Malformed)
    }
}
