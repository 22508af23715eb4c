ghost use Rattle.std.specs.Prelude.{◌≡◌, ◌↔◌, IsTrue};
ghost use Rattle.httparse.specs.Grammar.{EndsInTarget};
ghost use Rattle.http_in.specs.Target.{step, in_method, in_target};

use httparse::is_header_name_token;

/// Where in a request's line bytes end.
#[derive(Clone, Copy, Debug, PartialEq, Eq)]
pub enum Place {
    /// Behind empty lines, or before all.
    Start,
    /// Behind the CR of an empty line.
    Cr,
    Method,
    Target,
    /// Elsewhere.
    Other,
}

/// The bytes end within a target, or where one begins: a parser of heads cannot tell yet whether it
/// will be UTF-8.
pub fn ends_in_target(bytes: &[u8]) -> bool
    ensures { IsTrue result ↔ EndsInTarget bytes.now }
{
    let mut place = Place::Start;
    for byte in bytes {
        place = step(place, *byte);
    }
    place == Place::Target
}

fn step(place: Place, byte: u8) -> Place
    ensures { result ≡ step place byte }
{
    match place {
        Place::Start => match byte {
            b'\r' => Place::Cr,
            b'\n' => Place::Start,
            _ => in_method(byte),
        },
        Place::Cr => match byte {
            b'\n' => Place::Start,
            _ => Place::Other,
        },
        Place::Method => match byte {
            b' ' => Place::Target,
            _ => in_method(byte),
        },
        Place::Target => in_target(byte),
        Place::Other => Place::Other,
    }
}

fn in_method(byte: u8) -> Place
    ensures { result ≡ in_method byte }
{
    if is_header_name_token(byte) {
        Place::Method
    } else {
        Place::Other
    }
}

fn in_target(byte: u8) -> Place
    ensures { result ≡ in_target byte }
{
    if byte > b' ' && byte != 127 {
        Place::Target
    } else {
        Place::Other
    }
}
