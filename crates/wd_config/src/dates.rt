ghost use Rattle.std.specs.Prelude.{◌↔◌, IsTrue};
ghost use Rattle.wd_config.specs.Dates.{AreDigits, IsDate};

use crate::cut::split;

/// Whether a text has the form of a compatibility date: four digits, `-`, two digits, `-`, two
/// digits. Which dates there are in the calendar is not asked.
pub fn is_date(text: &[u8]) -> bool
    ensures { IsTrue result ↔ IsDate text.now }
{
    let Some((year, rest)) = split(text, b'-') else {
        return false;
    };
    let Some((month, day)) = split(rest, b'-') else {
        return false;
    };
    are_parts(year, month, day)
}

fn are_parts(year: &[u8], month: &[u8], day: &[u8]) -> bool
    ensures { IsTrue result ↔ (AreDigits 4 year.now × AreDigits 2 month.now × AreDigits 2 day.now) }
{
    are_digits(year, 4) && are_digits(month, 2) && are_digits(day, 2)
}

fn are_digits(text: &[u8], count: usize) -> bool
    ensures { IsTrue result ↔ AreDigits count text.now }
{
    text.len() == count && text.iter().all(|byte| byte.is_ascii_digit())
}
