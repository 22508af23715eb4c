use wd_base::{Bytes, Seq};

/// Bytes, and the place of the text's byte with which what they stand for begins.
#[derive(Debug, Drop)]
pub struct Placed {
    pub place: usize,
    pub bytes: Bytes,
}

/// A value. Its place is that of its first byte.
#[derive(Debug, Drop)]
#[cycle(value)]
pub enum Value {
    /// `"text"`: the bytes that it stands for, its escapes read
    Text(Placed),
    /// `0x"de ad"`: the bytes that it stands for
    Data(Placed),
    /// decimal digits
    Number(Placed),
    /// `true`, `false` or another name that stands alone
    Word(Placed),
    /// `.name`: the place of the point, and the name
    Constant(usize, Placed),
    /// `embed "path"`: the place of the word, and the path
    Embed(usize, Placed),
    /// `(name = value, ..)`: the place of the opening bracket, and the fields
    Struct(usize, Seq<Field>),
    /// `[value, ..]`: the place of the opening bracket, and the items
    List(usize, Seq<Value>),
}

/// A field of a struct.
#[derive(Debug, Drop)]
#[cycle(value)]
pub struct Field {
    pub name: Placed,
    pub value: Value,
}

/// A declaration.
#[derive(Debug, Drop)]
pub enum Decl {
    /// `using name = import "path";`
    Using {
        name: Placed,
        path: Placed,
    },
    /// `@0x1f;`: the digits, with the place of their `0x`
    Id(Placed),
    /// `const name :Type = value;`: the type's names between its points
    Const {
        name: Placed,
        type_: Seq<Placed>,
        value: Value,
    },
}

/// A file: its declarations, in order.
pub type File = Seq<Decl>;
