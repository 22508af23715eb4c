//! What requests and responses of HTTP/1.1 share: the fields that delimit a body, bodies by chunks
//! with their trailers, and the field that ends a connection.
#![tactic(auto)]

mod chunks;
mod extent;
mod fields;
mod limits;
#[cfg(test)]
mod tests;
mod trailer;

pub use chunks::{ChunkReader, Chunked};
pub use extent::{Extent, Refusal, extent_of};
pub use fields::{Found, closes, find_field, is_word};
pub use limits::{MAX_BODY, MAX_FIELDS, MAX_HEAD, ROOM};
pub use trailer::{first_bytes, room};
