ghost use Rattle.std.specs.Prelude.{◌≡◌};
ghost use Rattle.js_arena.specs.Heap.{op_end};

use crate::props::{Props, ShortText};
use wd_base::{Bytes, NoMemory, Seq, Units};

/// The number of a cell, counted from 0 within its heap.
#[derive(Clone, Copy, Debug, PartialEq, Eq)]
pub struct CellNo(pub u32);

/// The number of a handle's name, counted from 0 within its heap.
#[derive(Clone, Copy, Debug, PartialEq, Eq)]
pub struct HandleNo(pub usize);

/// What a handle names: an I/O object of a request, and whether it is that of an event. `req` and
/// `obj` are the numbers of a `Req` and an `Obj`.
#[derive(Clone, Copy, Debug, PartialEq, Eq, Hash)]
pub struct HandleName {
    pub req: u64,
    pub obj: u32,
    pub event: bool,
}

/// The kinds of Error objects (ECMA-262, sections 20.5.1 and 20.5.5).
#[derive(Clone, Copy, Debug, PartialEq, Eq)]
pub enum ErrKind {
    Error,
    TypeError,
    RangeError,
    ReferenceError,
    SyntaxError,
}

/// The members of a string that are called (ECMA-262, section 22.1.3).
#[derive(Clone, Copy, Debug, PartialEq, Eq)]
pub enum StringCall {
    CharCodeAt,
    IndexOf,
    Includes,
    StartsWith,
    EndsWith,
    Slice,
    Split,
    Trim,
}

/// The members of an array that are called (ECMA-262, section 23.1.3).
#[derive(Clone, Copy, Debug, PartialEq, Eq)]
pub enum ArrayCall {
    Push,
    Pop,
    Slice,
    Concat,
    IndexOf,
    Includes,
    Join,
    Map,
    Filter,
    ForEach,
}

/// The built-in objects that only hold functions.
#[derive(Clone, Copy, Debug, PartialEq, Eq)]
pub enum NameSpace {
    Console,
    Json,
    Object,
    Array,
}

/// The built-in functions and name spaces.
#[derive(Clone, Copy, Debug, PartialEq, Eq)]
pub enum Native {
    NameSpace(NameSpace),
    /// A kind of Error, to be called by `new`.
    ErrorKind(ErrKind),
    /// `console.log`
    Log,
    /// `JSON.parse`
    JsonParse,
    /// `JSON.stringify`
    JsonStringify,
    /// `Object.keys`
    ObjectKeys,
    /// `Object.values`
    ObjectValues,
    /// `Object.entries`
    ObjectEntries,
    /// `Array.isArray`
    IsArray,
    /// `String` as a function
    ToText,
    /// `Number` as a function
    ToNumber,
    /// A member of a string, without its string.
    StringCall(StringCall),
    /// A member of an array, without its array.
    ArrayCall(ArrayCall),
}

/// A value of a script (ECMA-262, section 6.1). Numbers are the safe integers. A string is a text
/// of the script by its number, or a cell; both are equal by their units. What a cell holds is
/// told by the cell.
#[derive(Clone, Copy, Debug, PartialEq, Eq)]
pub enum Value {
    Undefined,
    Null,
    Bool(bool),
    Number(i64),
    Literal(u32),
    Text(CellNo),
    Cell(CellNo),
    Native(Native),
    Handle(HandleNo),
}

/// A cell of the heap.
#[derive(Drop)]
pub enum Cell {
    /// A string that was made at run time.
    Text(Units),
    /// A variable; None where it is not initialised.
    Variable(Option<Value>),
    Object(Props),
    Array(Seq<Value>),
    /// A function of the script, by the number of its closure.
    Function(u32),
    /// A call of a function. Its content stands elsewhere.
    Activation,
    /// An Error object.
    Error(ErrKind, Msg),
    Buffer(Bytes),
}

/// What an Error object says. Numbers of texts are those of the script's texts.
#[derive(Debug, Drop)]
pub enum Msg {
    /// The text of the script with this number, as the script gave it.
    OfLiteral(u32),
    /// The text in this cell, as the script gave it.
    OfText(CellNo),
    /// `<name> is not defined`
    NotDefined(u32),
    /// `<name> is not initialized`
    NotInitialized(u32),
    /// `assignment to constant <name>`
    Constant(u32),
    /// `refused name <name>`
    RefusedName(ShortText),
    /// `not convertible`
    NotConvertible,
    /// `not a safe integer`
    NotSafe,
    /// `division by zero`
    DivisionByZero,
    /// `array gap`
    ArrayGap,
    /// `bad property`
    BadProperty,
    /// `not a function`
    NotFunction,
    /// `not an array`
    NotArray,
    /// `bad argument`
    BadArgument,
    /// `bad JSON`
    BadJson,
    /// `bad URL`
    BadUrl,
    /// `bad status`
    BadStatus,
    /// `Body has already been used.`
    BodyUsed,
    /// `Cannot perform I/O on behalf of a different request.`
    OtherRequest,
    /// `Disallowed operation called within global scope.`
    GlobalScope,
    /// `Too many subrequests.`
    TooManySubrequests,
    /// `Network connection lost.`
    ConnectionLost,
}

/// Why a cell was not made or changed: its units do not fit the limit, or there is no memory.
#[derive(Clone, Copy, Debug, PartialEq, Eq)]
pub enum ArenaEnd {
    Full,
    NoMemory,
}

/// Why an operation gave no value: it throws an Error of a kind with a message, what it would make
/// does not fit the heap's limit, or there is no memory.
#[derive(Debug, Drop)]
pub enum OpEnd {
    Throw(ErrKind, Msg),
    Full,
    NoMemory,
}

impl From<NoMemory> for ArenaEnd {
    fn from(_error: NoMemory) -> ArenaEnd
        ensures { result ≡ ArenaEnd.NoMemory }
    {
        ArenaEnd::NoMemory
    }
}

impl From<NoMemory> for OpEnd {
    fn from(_error: NoMemory) -> OpEnd
        ensures { result ≡ OpEnd.NoMemory }
    {
        OpEnd::NoMemory
    }
}

impl From<ArenaEnd> for OpEnd {
    fn from(end: ArenaEnd) -> OpEnd
        ensures { result ≡ op_end end }
    {
        match end {
            ArenaEnd::Full => OpEnd::Full,
            ArenaEnd::NoMemory => OpEnd::NoMemory,
        }
    }
}
