use wd_base::{Seat, ServiceNo};

/// What a seat comes to before each turn of an isolate.
pub trait Gate: Sync {
    /// Called while the isolate is out of the board and the board's lock is free. It may hold the
    /// turn back for a while, and gives nothing.
    fn before_turn(&self, seat: Seat, isolate: ServiceNo);
}

/// The gate that holds no turn back.
#[derive(Clone, Copy, Debug, PartialEq, Eq)]
pub struct NoGate;

impl Gate for NoGate {
    fn before_turn(&self, _seat: Seat, _isolate: ServiceNo) {}
}
