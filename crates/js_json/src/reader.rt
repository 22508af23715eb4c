ghost use Rattle.std.specs.Prelude.{◌≡◌, ◌↔◌, IsTrue, ◌<◌, ◌^◌, [], length};
ghost use Rattle.js_json.specs.Grammar.{IsJson};
ghost use Rattle.js_json.specs.Machine as spec;

use crate::levels::{Level, Levels, MOST_LEVELS};
use crate::machine::{Inner, Part, Spot, State, Taken};
use crate::name::Name;
use crate::part::{first_part, is_key, may_end, token};
use crate::units::is_blank;
use wd_base::Units;

fn stay(levels: Levels, spot: Spot) -> Option<State>
    ensures { result ≡ spec.stay levels spot }
{
    Some(State { levels, spot })
}

fn open(level: Level, spot: Spot, levels: Levels) -> Option<State>
    ensures { result ≡ spec.open_one level spot levels }
{
    if levels.len() < MOST_LEVELS {
        stay(levels.with(level), spot)
    } else {
        None
    }
}

fn begin_part(levels: Levels, part: Option<Part>) -> Option<State>
    ensures { result ≡ spec.begin_part levels part }
{
    match part {
        Some(part) => stay(levels, Spot::In(part)),
        None => None,
    }
}

/// A value begins (ECMA-404, section 5).
fn begin(levels: Levels, unit: u16) -> Option<State>
    ensures { result ≡ spec.begin levels unit }
{
    if unit == 0x5B {
        open(Level::Array, Spot::FirstItem, levels)
    } else if unit == 0x7B {
        open(Level::Object, Spot::FirstKey, levels)
    } else {
        begin_part(levels, first_part(unit))
    }
}

fn begin_key(levels: Levels, unit: u16) -> Option<State>
    ensures { result ≡ spec.begin_key levels unit }
{
    if unit == 0x22 {
        stay(
            levels,
            Spot::In(Part::Text(true, Name::new(), Inner::Plain)),
        )
    } else {
        None
    }
}

fn close_array(levels: Levels) -> Option<State>
    ensures { result ≡ spec.close_array levels }
{
    let mut levels = levels;
    match levels.pop() {
        Some(Level::Array) => stay(levels, Spot::Done),
        Some(Level::Object) => None,
        None => None,
    }
}

fn close_object(levels: Levels) -> Option<State>
    ensures { result ≡ spec.close_object levels }
{
    let mut levels = levels;
    match levels.pop() {
        Some(Level::Object) => stay(levels, Spot::Done),
        Some(Level::Array) => None,
        None => None,
    }
}

/// A comma stands behind a value.
fn next(levels: Levels) -> Option<State>
    ensures { result ≡ spec.next levels }
{
    let mut rest = levels;
    match rest.pop() {
        Some(Level::Array) => stay(rest.with(Level::Array), Spot::Begin),
        Some(Level::Object) => stay(rest.with(Level::Object), Spot::NextKey),
        None => None,
    }
}

fn after(levels: Levels, unit: u16) -> Option<State>
    ensures { result ≡ spec.after levels unit }
{
    if unit == 0x5D {
        close_array(levels)
    } else if unit == 0x7D {
        close_object(levels)
    } else if unit == 0x2C {
        next(levels)
    } else {
        None
    }
}

fn on_begin(levels: Levels, unit: u16) -> Option<State>
    ensures { result ≡ spec.on_begin levels unit }
{
    if is_blank(unit) {
        stay(levels, Spot::Begin)
    } else {
        begin(levels, unit)
    }
}

fn on_first_item(levels: Levels, unit: u16) -> Option<State>
    ensures { result ≡ spec.on_first_item levels unit }
{
    if is_blank(unit) {
        stay(levels, Spot::FirstItem)
    } else if unit == 0x5D {
        close_array(levels)
    } else {
        begin(levels, unit)
    }
}

fn on_first_key(levels: Levels, unit: u16) -> Option<State>
    ensures { result ≡ spec.on_first_key levels unit }
{
    if is_blank(unit) {
        stay(levels, Spot::FirstKey)
    } else if unit == 0x7D {
        close_object(levels)
    } else {
        begin_key(levels, unit)
    }
}

fn on_next_key(levels: Levels, unit: u16) -> Option<State>
    ensures { result ≡ spec.on_next_key levels unit }
{
    if is_blank(unit) {
        stay(levels, Spot::NextKey)
    } else {
        begin_key(levels, unit)
    }
}

fn on_colon(levels: Levels, unit: u16) -> Option<State>
    ensures { result ≡ spec.on_colon levels unit }
{
    if is_blank(unit) {
        stay(levels, Spot::Colon)
    } else if unit == 0x3A {
        stay(levels, Spot::Begin)
    } else {
        None
    }
}

fn on_done(levels: Levels, unit: u16) -> Option<State>
    ensures { result ≡ spec.on_done levels unit }
{
    if is_blank(unit) {
        stay(levels, Spot::Done)
    } else {
        after(levels, unit)
    }
}

fn behind(key: bool) -> Spot
    ensures { result ≡ spec.behind key }
{
    if key { Spot::Colon } else { Spot::Done }
}

fn on_taken(levels: Levels, key: bool, taken: Taken, unit: u16) -> Option<State>
    ensures { result ≡ spec.on_taken levels key taken unit }
{
    match taken {
        Taken::More(part) => stay(levels, Spot::In(part)),
        Taken::Closed => stay(levels, behind(key)),
        Taken::Ended => on_done(levels, unit),
        Taken::Bad => None,
    }
}

/// What the unit does, or None where no text goes on so.
fn step(state: State, unit: u16) -> Option<State>
    ensures { result ≡ spec.step state unit }
{
    let State { levels, spot } = state;
    match spot {
        Spot::Begin => on_begin(levels, unit),
        Spot::FirstItem => on_first_item(levels, unit),
        Spot::FirstKey => on_first_key(levels, unit),
        Spot::NextKey => on_next_key(levels, unit),
        Spot::Colon => on_colon(levels, unit),
        Spot::Done => on_done(levels, unit),
        Spot::In(part) => {
            let key = is_key(&part);
            on_taken(levels, key, token(part, unit), unit)
        }
    }
}

fn may_stop(spot: &Spot) -> bool
    ensures { result ≡ spec.stops_at [] spot.now }
{
    match spot {
        Spot::Done => true,
        Spot::In(part) => may_end(part),
        Spot::Begin | Spot::FirstItem | Spot::FirstKey => false,
        Spot::NextKey | Spot::Colon => false,
    }
}

fn stops(state: &State) -> bool
    ensures { result ≡ spec.stops state.now }
{
    state.levels.len() == 0 && may_stop(&state.spot)
}

fn accepts(units: &[u16]) -> bool
    ensures accepted { result ≡ spec.accepts spec.start units.now }
    ensures short { length units.now < 2 ^ 63 }
{
    let mut state = State {
        levels: Levels::new(),
        spot: Spot::Begin,
    };
    let length = units.len();
    for at in 0..length {
        match step(state, units[at]) {
            Some(next) => state = next,
            None => return false,
        }
    }
    stops(&state)
}

/// The text is one on which `JSON.parse` (ECMA-262, section 25.5.1) throws nothing here: JSON
/// (ECMA-404) with at most 64 arrays and objects open at any place, of which each number is a safe
/// integer and no key a refused name. Time is linear in its length; no memory is taken.
pub fn valid(text: &Units) -> bool
    ensures { IsTrue result ↔ IsJson text.now }
{
    accepts(text.as_slice())
}
