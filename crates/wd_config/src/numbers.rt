ghost use Rattle.std.specs.Prelude.{◌≡◌, ◌↔◌, ◌≤◌, ℕ, Some, IsTrue};
ghost use Rattle.std.specs.Fmt.{decimal};
ghost use Rattle.wd_config.specs.Numbers.{BeginsAsNumber};

/// The number that a text writes in decimal, without a sign or a leading zero, and None where it
/// writes none or one above `most`.
pub fn number(text: &[u8], most: u32) -> Option<u32>
    ensures { (n : ℕ) → (result ≡ Some n) ↔ ((text.now ≡ decimal n) × (n ≤ most)) }
{
    if !begins_as_number(text) {
        return None;
    }
    let Ok(digits) = str::from_utf8(text) else {
        return None;
    };
    match digits.parse::<u32>() {
        Ok(n) if n <= most => Some(n),
        _ => None,
    }
}

/// The first byte is a digit, and `0` stands alone.
fn begins_as_number(text: &[u8]) -> bool
    ensures { IsTrue result ↔ BeginsAsNumber text.now }
{
    match text.split_first() {
        Some((first, rest)) => first.is_ascii_digit() && (*first != b'0' || rest.is_empty()),
        None => false,
    }
}
