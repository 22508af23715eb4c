ghost use Rattle.std.specs.Prelude.{◌≡◌, ◌≤◌, ◌++◌, ℕ, List, [], ◌∷◌, length, map, slice_range, codes, All};
ghost use Rattle.std.specs.List.{list_any};
ghost use Rattle.httparse.specs.Grammar.{trim_ows};
ghost use Rattle.httparse.specs.Spans.{header_bytes, span_bytes, IsHeaderWithin, IsWithin};
ghost use Rattle.http_message.specs.Fields.{values_of, has_close, closes, is_word, IsFound};

use httparse::is_space_or_tab;
use httparse::spans::{HeaderSpan, Span};

/// What stands of the fields of one name.
#[derive(Clone, Copy, Debug, PartialEq, Eq)]
pub enum Found {
    Absent,
    /// One, whose value is here.
    Once(Span),
    /// Two or more.
    Again,
}

/// The text is the word, without regard to the case of letters (RFC 9110, section 5.1).
#[tactic(auto, unfolding(crate::specs::Fields::is_word))]
pub fn is_word(word: &[u8], text: &[u8]) -> bool
    ensures { result ≡ is_word word.now text.now }
{
    text.eq_ignore_ascii_case(word)
}

/// Looks for the fields of a name among those of a head.
pub fn find_field(bytes: &[u8], fields: &[HeaderSpan], name: &[u8]) -> Found
    requires { All (IsHeaderWithin (length bytes.now)) fields.now }
    ensures { IsFound bytes.now (values_of name.now (map (header_bytes bytes.now) fields.now)) result }
{
    let mut found = Found::Absent;
    for field in fields {
        if is_word(name, field.name.of(bytes)) {
            found = add(found, field.value);
        }
    }
    found
}

fn add(found: Found, value: Span) -> Found
    ensures { (bytes : List ℕ) (values : List (List ℕ)) → IsFound bytes values found → IsWithin (length bytes) value
        → IsFound bytes (values ++ span_bytes bytes value ∷ []) result }
{
    match found {
        Found::Absent => Found::Once(value),
        _ => Found::Again,
    }
}

/// The connection ends behind a message of this minor version with these fields: it is of version
/// 1.0, or `close` is one of the parts at commas of a Connection field (RFC 9112, section 9.6).
#[tactic(auto, unfolding(crate::specs::Fields::closes))]
pub fn closes(minor: u8, bytes: &[u8], fields: &[HeaderSpan]) -> bool
    requires { All (IsHeaderWithin (length bytes.now)) fields.now }
    ensures { result ≡ closes minor (map (header_bytes bytes.now) fields.now) }
{
    minor == 0 || asks_close(bytes, fields)
}

fn asks_close(bytes: &[u8], fields: &[HeaderSpan]) -> bool
    requires { All (IsHeaderWithin (length bytes.now)) fields.now }
    ensures { result ≡ list_any has_close (values_of (codes "connection") (map (header_bytes bytes.now) fields.now)) }
{
    for field in fields {
        if is_word(b"connection", field.name.of(bytes)) && has_close(field.value.of(bytes)) {
            return true;
        }
    }
    false
}

fn has_close(value: &[u8]) -> bool
    ensures { result ≡ has_close value.now }
{
    let mut start = 0;
    for (i, byte) in value.iter().enumerate() {
        if *byte == b',' {
            if is_close(value, start, i) {
                return true;
            }
            start = i + 1;
        }
    }
    is_close(value, start, value.len())
}

/// The part from `start` to `end` is `close`, with spaces and tabs around it or without.
fn is_close(value: &[u8], start: usize, end: usize) -> bool
    requires ordered { start ≤ end }
    requires within { end ≤ length value.now }
    ensures { result ≡ is_word (codes "close") (trim_ows (slice_range value.now start end)) }
{
    is_word(b"close", trimmed(value, start, end).of(value))
}

/// The part from `start` to `end` without the spaces and tabs at both ends.
fn trimmed(value: &[u8], mut start: usize, mut end: usize) -> Span
    requires ordered { start ≤ end }
    requires within { end ≤ length value.now }
    ensures inside { IsWithin end result }
    ensures value { span_bytes value.now result ≡ trim_ows (slice_range value.now start end) }
{
    while start < end && is_space_or_tab(value[start]) {
        start += 1;
    }
    while start < end && is_space_or_tab(value[end - 1]) {
        end -= 1;
    }
    Span { start, end }
}
