use wd_base::{Seq, Units};

/// The words that ECMA-262 reserves in strict module code (section 12.7.2): no names.
#[derive(Clone, Copy, Debug, PartialEq, Eq)]
pub enum Reserved {
    Await,
    Break,
    Case,
    Catch,
    Class,
    Const,
    Continue,
    Debugger,
    Default,
    Delete,
    Do,
    Else,
    Enum,
    Export,
    Extends,
    False,
    Finally,
    For,
    Function,
    If,
    Implements,
    Import,
    In,
    InstanceOf,
    Interface,
    Let,
    New,
    Null,
    Package,
    Private,
    Protected,
    Public,
    Return,
    Static,
    Super,
    Switch,
    This,
    Throw,
    True,
    Try,
    TypeOf,
    Var,
    Void,
    While,
    With,
    Yield,
}

/// The punctuators of ECMA-262 (section 12.8).
#[derive(Clone, Copy, Debug, PartialEq, Eq)]
pub enum Punctuator {
    /// `{`
    OpenBrace,
    /// `}`
    CloseBrace,
    /// `(`
    OpenParen,
    /// `)`
    CloseParen,
    /// `[`
    OpenBracket,
    /// `]`
    CloseBracket,
    /// `.`
    Dot,
    /// `...`
    Ellipsis,
    /// `;`
    Semicolon,
    /// `,`
    Comma,
    /// `<`
    Less,
    /// `>`
    Greater,
    /// `<=`
    LessEqual,
    /// `>=`
    GreaterEqual,
    /// `==`
    EqualEqual,
    /// `!=`
    NotEqual,
    /// `===`
    Identical,
    /// `!==`
    NotIdentical,
    /// `+`
    Plus,
    /// `-`
    Minus,
    /// `*`
    Star,
    /// `/`
    Slash,
    /// `%`
    Percent,
    /// `**`
    StarStar,
    /// `++`
    PlusPlus,
    /// `--`
    MinusMinus,
    /// `<<`
    ShiftLeft,
    /// `>>`
    ShiftRight,
    /// `>>>`
    ShiftRightUnsigned,
    /// `&`
    Ampersand,
    /// `|`
    Bar,
    /// `^`
    Caret,
    /// `!`
    Not,
    /// `~`
    Tilde,
    /// `&&`
    AndAnd,
    /// `||`
    OrOr,
    /// `??`
    QuestionQuestion,
    /// `?`
    Question,
    /// `?.`
    QuestionDot,
    /// `:`
    Colon,
    /// `=`
    Equal,
    /// `+=`
    PlusEqual,
    /// `-=`
    MinusEqual,
    /// `*=`
    StarEqual,
    /// `/=`
    SlashEqual,
    /// `%=`
    PercentEqual,
    /// `**=`
    StarStarEqual,
    /// `<<=`
    ShiftLeftEqual,
    /// `>>=`
    ShiftRightEqual,
    /// `>>>=`
    ShiftRightUnsignedEqual,
    /// `&=`
    AmpersandEqual,
    /// `|=`
    BarEqual,
    /// `^=`
    CaretEqual,
    /// `&&=`
    AndAndEqual,
    /// `||=`
    OrOrEqual,
    /// `??=`
    QuestionQuestionEqual,
    /// `=>`
    Arrow,
}

/// Which part of a template (ECMA-262, section 12.9.6) a token is.
#[derive(Clone, Copy, Debug, PartialEq, Eq)]
pub enum TemplatePart {
    /// all of one without `${`
    Whole,
    /// from the first backtick to `${`
    Head,
    /// from `}` to `${`
    Middle,
    /// from `}` to the last backtick
    Tail,
}

/// Whether a script that cannot be read is none of ECMA-262, or has a form that is left out here.
#[derive(Clone, Copy, Debug, PartialEq, Eq)]
pub enum ScriptKind {
    Syntax,
    LeftOut,
}

/// Why a script cannot be read.
#[derive(Debug, Drop)]
pub struct ScriptFault {
    pub kind: ScriptKind,
    /// where, in UTF-16 units from the script's begin
    pub place: usize,
    /// the form that is left out; of `Syntax` empty
    pub word: Units,
}

/// What a token is.
#[derive(Debug, Drop)]
pub enum TokenKind {
    /// ASCII letters, digits, `_` and `$`
    Name(Units),
    Reserved(Reserved),
    /// its value, which is at most 2^53 - 1
    Number(u64),
    /// the units that a string literal stands for
    Text(Units),
    /// the units that a part of a template stands for
    Template(TemplatePart, Units),
    Punctuator(Punctuator),
    /// behind the last token
    End,
    /// no token can be read here
    Bad(ScriptFault),
}

/// A token.
#[derive(Debug, Drop)]
pub struct Token {
    /// the place of its first UTF-16 unit, counted from the script's begin
    pub place: usize,
    /// a line end stands between the token before it, or the script's begin, and it
    pub after_line_end: bool,
    pub kind: TokenKind,
}

/// The tokens of a script. The last one, and no other, is `End` or `Bad`.
pub type Tokens = Seq<Token>;
