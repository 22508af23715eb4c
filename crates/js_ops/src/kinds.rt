use js_arena::Value;
use wd_base::Units;

/// The operators between two operands that are computed from their values (ECMA-262, sections 13.7,
/// 13.8, 13.10 and 13.11). Those of a syntax tree are kinds of the tree's own crate; `??`, `||` and
/// `&&` are no operations, since they may leave their right side out.
#[derive(Clone, Copy, Debug, PartialEq, Eq)]
pub enum Binary {
    /// `===`
    Identical,
    /// `!==`
    NotIdentical,
    /// `<`
    Less,
    /// `<=`
    LessEqual,
    /// `>`
    Greater,
    /// `>=`
    GreaterEqual,
    /// `+`
    Add,
    /// `-`
    Subtract,
    /// `*`
    Multiply,
    /// `/`
    Divide,
    /// `%`
    Remainder,
}

/// The operators before an operand that are computed from its value (section 13.5).
#[derive(Clone, Copy, Debug, PartialEq, Eq)]
pub enum Unary {
    /// `!`
    Not,
    /// `-`
    Negate,
    /// `typeof`
    TypeOf,
}

/// The operations on two numbers.
#[derive(Clone, Copy, Debug, PartialEq, Eq)]
pub enum NumberOp {
    Sum,
    Difference,
    Product,
    Quotient,
    Remainder,
}

/// What is asked of an order.
#[derive(Clone, Copy, Debug, PartialEq, Eq)]
pub enum OrderTest {
    Less,
    LessEqual,
    Greater,
    GreaterEqual,
}

/// Why there is no result of a conversion or an operation.
#[derive(Clone, Copy, Debug, PartialEq, Eq)]
pub enum Fault {
    /// TypeError `not convertible`
    NotConvertible,
    /// RangeError `not a safe integer`
    NotSafe,
    /// RangeError `division by zero`
    DivisionByZero,
}

/// What an operation computes, before the heap is changed: the units of a new string, a value, or
/// the fault that is thrown.
#[derive(Debug, Drop)]
pub enum Computed {
    Gives(Units),
    GivesValue(Value),
    Throws(Fault),
}
