use crate::tree::{Decl, Field, Placed, Value};
use wd_base::{NoMemory, Seq, Stack};

/// `const` name `:` type `=`
#[derive(Debug, Drop)]
pub struct Head {
    pub name: Placed,
    pub type_: Seq<Placed>,
}

/// An open bracket with what it has so far, which waits for a value.
#[derive(Debug, Drop)]
pub enum Frame {
    /// `[`, and items that each have a comma
    List(usize, Seq<Value>),
    /// `(`, fields that each have a comma, name `=`
    Struct(usize, Seq<Field>, Placed),
}

/// What was read of the innermost value.
#[derive(Debug, Drop)]
pub enum Spot {
    /// nothing
    Begin,
    /// `embed`
    Embed(usize),
    /// `.`
    Dot(usize),
    /// `[`, and items that each have a comma
    Item(usize, Seq<Value>),
    /// `(`, and fields that each have a comma
    Name(usize, Seq<Field>),
    /// .. and a name
    Equals(usize, Seq<Field>, Placed),
    /// all of it
    Done(Value),
}

/// What was read of the declaration.
#[derive(Debug, Drop)]
pub enum At {
    /// nothing
    Decl,
    /// `@`
    Id,
    /// `@` `0x1f`
    IdEnd(Placed),
    /// `using`
    UsingName,
    /// `using` name
    UsingEquals(Placed),
    /// `using` name `=`
    UsingImport(Placed),
    /// `using` name `=` `import`
    UsingPath(Placed),
    /// `using` name `=` `import` path
    UsingEnd(Placed, Placed),
    /// `const`
    ConstName,
    /// `const` name
    ConstColon(Placed),
    /// `const` name `:`, and names of the type that each have a point
    Type(Head),
    /// .. and one more name
    Typed(Head, Placed),
    /// the head, the open brackets, the innermost last, and the value in them
    In(Head, Stack<Frame>, Spot),
}

/// What was read: whole declarations, and of the next one.
#[derive(Debug, Drop)]
pub struct State {
    pub decls: Seq<Decl>,
    pub at: At,
}

/// Why a token is refused.
#[derive(Clone, Copy, Debug, PartialEq, Eq)]
pub enum Refusal {
    BadToken,
    BadDecl,
    TooDeep,
}

/// Why a step was not made.
#[derive(Clone, Copy, Debug, PartialEq, Eq)]
pub enum StepEnd {
    Refused(Refusal),
    NoMemory,
}

impl From<NoMemory> for StepEnd {
    ghost use Rattle.std.specs.Prelude.{◌≡◌};
    ghost use Rattle.capnp_text.specs.declared.machine.StepEnd.TheVariants as ends;

    ghost from_gives = { λ _ e. e ≡ ends.NoMemory };

    fn from(_error: NoMemory) -> StepEnd {
        StepEnd::NoMemory
    }
}
