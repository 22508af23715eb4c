//! The machine whose runs the server's journals are: entries, state, rules and isolates.
#![tactic(auto)]

mod apply;
mod ends;
mod find;
mod isolate;
mod journal;
mod machine;
mod quiet;
mod refusal;
mod rules;
mod state;
mod steps;
mod turn;

pub use apply::Core;
pub use find::Places;
pub use isolate::Isolate;
pub use journal::{Entries, Entry, Head, Journal};
pub use machine::Machine;
pub use quiet::{add_new_objects, is_dead_wake};
pub use refusal::{ApplyEnd, Kept, Refused};
pub use state::{Due, Flight, Pending, RequestState, Run, State, Waiter, Waiters, WorkerState};
pub use turn::{Out, OutField};
pub use wd_base::{IoObject, ObjKind, ObjName, OpResult, OpStart, Origin, Wake};
