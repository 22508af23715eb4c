//! The messages that the server sends, as bytes on a link: replies to its clients, and requests to
//! other servers.
//!
//! The names of fields are in lower case here, as everywhere in the server, so they are compared as
//! they are.
#![tactic(auto)]

mod fields;
mod phrases;
mod reply;
mod request;
#[cfg(test)]
mod tests;

pub use fields::is_own_field;
pub use phrases::{bad_reply, phrase};
pub use reply::reply_text;
pub use request::request_text;
