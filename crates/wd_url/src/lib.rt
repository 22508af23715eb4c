//! URLs as requests spell them: the parsed URL of bytes, its text, and the parts of it that a
//! request's head states. A `Url` is that of the URL Standard.
#![tactic(auto)]

mod parsed;
mod parts;
#[cfg(test)]
mod tests;

pub use parsed::{parse, url_text};
pub use parts::{host_and_port, path_and_query};
pub use url::Url;
