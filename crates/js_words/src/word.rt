/// The words and forms of ECMA-262 that scripts here have not.
#[derive(Clone, Copy, Debug, PartialEq, Eq)]
pub enum Word {
    /// `class`
    Class,
    /// `switch`
    Switch,
    /// `var`
    Var,
    /// `import`
    Import,
    /// `yield`
    Yield,
    /// `delete`
    Delete,
    /// `in`
    In,
    /// `instanceof`
    InstanceOf,
    /// `do`
    Do,
    /// `with`
    With,
    /// `void`
    Void,
    /// `super`
    Super,
    /// `debugger`
    Debugger,
    /// `enum`
    Enum,
    /// `get` before a key
    Get,
    /// `set` before a key
    Set,
    /// `==`
    EqualEqual,
    /// `!=`
    NotEqual,
    /// `...`
    Ellipsis,
    /// `**`
    StarStar,
    /// `?.`
    QuestionDot,
    /// `&`
    Ampersand,
    /// `|`
    Bar,
    /// `^`
    Caret,
    /// `~`
    Tilde,
    /// `<<`
    ShiftLeft,
    /// `>>`
    ShiftRight,
    /// `>>>`
    ShiftRightUnsigned,
    /// `*=`
    StarEqual,
    /// `/=`
    SlashEqual,
    /// `%=`
    PercentEqual,
    /// `**=`
    StarStarEqual,
    /// `<<=`
    ShiftLeftEqual,
    /// `>>=`
    ShiftRightEqual,
    /// `>>>=`
    ShiftRightUnsignedEqual,
    /// `&=`
    AmpersandEqual,
    /// `|=`
    BarEqual,
    /// `^=`
    CaretEqual,
    /// `&&=`
    AndAndEqual,
    /// `||=`
    OrOrEqual,
    /// `??=`
    QuestionQuestionEqual,
    /// `+` before an operand
    UnaryPlus,
    /// a number with a fraction, an exponent or a suffix, or one that is not safe
    Number,
    RegularExpression,
    /// a name that is not of ASCII
    Identifier,
    /// a pattern in place of a declared name
    Destructuring,
    /// a parameter's default value
    Default,
    /// a statement's label
    Label,
    /// a computed key
    Computed,
    /// a second expression behind a comma
    Comma,
    /// more than 128 constructs open at a place
    Nesting,
}

/// What stands at a place, as far as the words depend on it.
#[derive(Clone, Copy, Debug, PartialEq, Eq)]
pub enum Spot {
    ExpressionBegin,
    OperandEnd,
    DeclaredName,
    Key,
    Parameter,
    StatementBegin,
}
