ghost use Rattle.std.specs.Prelude.{◌≡◌, ◌≤◌};
ghost use Rattle.js_json.specs.Units as spec;

pub fn is_blank(unit: u16) -> bool
    ensures { result ≡ spec.is_blank unit }
{
    unit == 0x20 || unit == 0x09 || (unit == 0x0A || unit == 0x0D)
}

pub fn is_digit(unit: u16) -> bool
    ensures { result ≡ spec.is_digit unit }
{
    0x30 <= unit && unit <= 0x39
}

pub fn is_hex(unit: u16) -> bool
    ensures { result ≡ spec.is_hex unit }
{
    is_digit(unit) || (0x41 <= unit && unit <= 0x46 || 0x61 <= unit && unit <= 0x66)
}

/// The value of a hexadecimal digit, and 0 for another unit.
pub fn hex_value(unit: u16) -> u16
    ensures value { result ≡ spec.hex_value unit }
    ensures small { result ≤ 15 }
{
    if 0x30 <= unit && unit <= 0x39 {
        unit - 0x30
    } else if 0x41 <= unit && unit <= 0x46 {
        unit - 0x41 + 10
    } else if 0x61 <= unit && unit <= 0x66 {
        unit - 0x61 + 10
    } else {
        0
    }
}

/// The unit of four hexadecimal digits.
pub fn code_of(a: u16, b: u16, c: u16, d: u16) -> u16
    ensures { result ≡ spec.code_of a b c d }
{
    4096 * hex_value(a) + 256 * hex_value(b) + 16 * hex_value(c) + hex_value(d)
}

/// The unit may stand behind `\` on its own.
pub fn is_escape(unit: u16) -> bool
    ensures { result ≡ spec.is_escape unit }
{
    unit == 0x22
        || unit == 0x5C
        || unit == 0x2F
        || unit == 0x62
        || (unit == 0x66 || unit == 0x6E || unit == 0x72 || unit == 0x74)
}

/// What it stands for there.
pub fn escaped(unit: u16) -> u16
    ensures { result ≡ spec.escaped unit }
{
    match unit {
        0x62 => 0x08,
        0x66 => 0x0C,
        0x6E => 0x0A,
        0x72 => 0x0D,
        0x74 => 0x09,
        _ => unit,
    }
}

/// `e` or `E`
pub fn is_mark(unit: u16) -> bool
    ensures { result ≡ spec.is_mark unit }
{
    unit == 0x65 || unit == 0x45
}
