/// What is at fault in a script that the grammar allows.
#[derive(Clone, Copy, Debug, PartialEq, Eq)]
pub enum EarlyKind {
    /// a scope declares one name twice
    DoubleName,
    /// `return` outside a function
    ReturnOutside,
    /// `await` outside an async function
    AwaitOutside,
    /// `break` or `continue` outside a loop
    BreakOutside,
}

/// An early fault, with its place in UTF-16 units from the script's begin: that of the second name,
/// or of the word `return`, `await`, `break` or `continue`.
#[derive(Clone, Copy, Debug, PartialEq, Eq)]
pub struct EarlyFault {
    pub kind: EarlyKind,
    pub place: usize,
}

/// Why a script is not accepted.
#[derive(Clone, Copy, Debug, PartialEq, Eq)]
pub enum EarlyEnd {
    /// the first early fault in the order of the text
    Fault(EarlyFault),
    NoMemory,
}
