ghost use Rattle.std.specs.Prelude.{◌≡◌, ◌↔◌, IsTrue};
ghost use Rattle.std.specs.Str.{bytes_eq};
ghost use Rattle.js_names.specs.Names.{IsRefusedName, is_one_of, refused_names};

/// The units are those of the ASCII text.
fn is_ascii(units: &[u16], text: &[u8]) -> bool
    ensures { result ≡ bytes_eq units.now text.now }
{
    if units.len() != text.len() {
        return false;
    }
    for at in 0..text.len() {
        if units[at] != u16::from(text[at]) {
            return false;
        }
    }
    true
}

fn is_listed(name: &[u16]) -> bool
    ensures { result ≡ is_one_of name.now refused_names }
{
    is_ascii(name, b"__proto__")
        || is_ascii(name, b"constructor")
        || is_ascii(name, b"hasOwnProperty")
        || is_ascii(name, b"isPrototypeOf")
        || is_ascii(name, b"propertyIsEnumerable")
        || is_ascii(name, b"toLocaleString")
        || is_ascii(name, b"toString")
        || is_ascii(name, b"valueOf")
        || is_ascii(name, b"__defineGetter__")
        || is_ascii(name, b"__defineSetter__")
        || is_ascii(name, b"__lookupGetter__")
        || is_ascii(name, b"__lookupSetter__")
        || is_ascii(name, b"then")
}

/// The name is refused as a property's: no object of a script has it, so that what other engines
/// let an object inherit is never read as its own. The name is given as UTF-16 units.
#[tactic(auto, using(crate::proofs::Decided::exact))]
pub fn refused_name(name: &[u16]) -> bool
    ensures { IsTrue result ↔ IsRefusedName name.now }
{
    is_listed(name)
}
