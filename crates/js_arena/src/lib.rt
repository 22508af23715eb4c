//! The heap of a script: values, cells and what they take, and the properties of objects.
#![tactic(auto)]

mod arena;
mod held;
mod keys;
mod props;
#[cfg(test)]
mod tests;
mod value;

pub use arena::Arena;
pub use js_names::refused_name;
pub use keys::array_index;
pub use props::{Props, ShortText};
pub use value::{
    ArenaEnd, ArrayCall, Cell, CellNo, ErrKind, HandleName, HandleNo, Msg, NameSpace, Native,
    OpEnd, StringCall, Value,
};
