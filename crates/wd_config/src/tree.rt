ghost use Rattle.std.specs.Prelude.{◌≡◌};
ghost use Rattle.std.specs.Option.{option_copied, option_map};
ghost use Rattle.wd_config.specs.Values as spec;

use capnp_text::{Field, Placed, Value};

/// The value as a word that stands alone.
#[tactic(auto, unfolding(crate::specs::Values::as_word))]
pub fn as_word(value: &Value) -> Option<&Placed>
    ensures { option_copied result ≡ spec.as_word value.now }
{
    match value {
        Value::Word(word) => Some(word),
        Value::Text(_) | Value::Data(_) | Value::Number(_) => None,
        Value::Constant(_, _) | Value::Embed(_, _) => None,
        Value::Struct(_, _) | Value::List(_, _) => None,
    }
}

/// The value as a text.
#[tactic(auto, unfolding(crate::specs::Values::as_text))]
pub fn as_text(value: &Value) -> Option<&Placed>
    ensures { option_copied result ≡ spec.as_text value.now }
{
    match value {
        Value::Text(text) => Some(text),
        Value::Word(_) | Value::Data(_) | Value::Number(_) => None,
        Value::Constant(_, _) | Value::Embed(_, _) => None,
        Value::Struct(_, _) | Value::List(_, _) => None,
    }
}

/// The value as a `0x` text.
#[tactic(auto, unfolding(crate::specs::Values::as_data))]
pub fn as_data(value: &Value) -> Option<&Placed>
    ensures { option_copied result ≡ spec.as_data value.now }
{
    match value {
        Value::Data(bytes) => Some(bytes),
        Value::Word(_) | Value::Text(_) | Value::Number(_) => None,
        Value::Constant(_, _) | Value::Embed(_, _) => None,
        Value::Struct(_, _) | Value::List(_, _) => None,
    }
}

/// The value as an embed: its place and its path.
#[tactic(auto, unfolding(crate::specs::Values::as_embed))]
pub fn as_embed(value: &Value) -> Option<(usize, &Placed)>
    ensures { option_map (λ e. (e.0, e.1.now)) result ≡ spec.as_embed value.now }
{
    match value {
        Value::Embed(place, path) => Some((*place, path)),
        Value::Word(_) | Value::Text(_) | Value::Data(_) | Value::Number(_) => None,
        Value::Constant(_, _) => None,
        Value::Struct(_, _) | Value::List(_, _) => None,
    }
}

/// The value as a `.name`: the place of its point and the name.
#[tactic(auto, unfolding(crate::specs::Values::as_constant))]
pub fn as_constant(value: &Value) -> Option<(usize, &Placed)>
    ensures { option_map (λ e. (e.0, e.1.now)) result ≡ spec.as_constant value.now }
{
    match value {
        Value::Constant(place, name) => Some((*place, name)),
        Value::Word(_) | Value::Text(_) | Value::Data(_) | Value::Number(_) => None,
        Value::Embed(_, _) => None,
        Value::Struct(_, _) | Value::List(_, _) => None,
    }
}

/// The value as a struct: the place of its opening bracket and its fields.
#[tactic(auto, unfolding(crate::specs::Values::as_struct))]
pub fn as_struct(value: &Value) -> Option<(usize, &[Field])>
    ensures { option_map (λ e. (e.0, e.1.now)) result ≡ spec.as_struct value.now }
{
    match value {
        Value::Struct(place, fields) => Some((*place, fields.as_slice())),
        Value::Word(_) | Value::Text(_) | Value::Data(_) | Value::Number(_) => None,
        Value::Constant(_, _) | Value::Embed(_, _) => None,
        Value::List(_, _) => None,
    }
}

/// The value as a list: its items.
#[tactic(auto, unfolding(crate::specs::Values::as_list))]
pub fn as_list(value: &Value) -> Option<&[Value]>
    ensures { option_map (λ e. e.now) result ≡ spec.as_list value.now }
{
    match value {
        Value::List(_, items) => Some(items.as_slice()),
        Value::Word(_) | Value::Text(_) | Value::Data(_) | Value::Number(_) => None,
        Value::Constant(_, _) | Value::Embed(_, _) => None,
        Value::Struct(_, _) => None,
    }
}

/// The place of its first byte.
#[tactic(auto, unfolding(crate::specs::Values::place_of))]
pub fn place_of(value: &Value) -> usize
    ensures { result ≡ spec.place_of value.now }
{
    match value {
        Value::Text(word) | Value::Data(word) | Value::Number(word) | Value::Word(word) => {
            word.place
        }
        Value::Constant(place, _) | Value::Embed(place, _) => *place,
        Value::Struct(place, _) | Value::List(place, _) => *place,
    }
}
