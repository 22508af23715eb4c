//! The reading of a configuration, and the texts of its values: dates, addresses, and ranges of
//! addresses.
#![tactic(auto)]

mod addresses;
mod build;
mod cut;
mod dates;
mod declarations;
mod faults;
mod items;
mod leaves;
mod lists;
mod names;
mod numbers;
mod open;
mod places;
mod ranges;
mod reader;
mod schema;
mod scope;
#[cfg(test)]
mod tests;
mod tree;
mod values;

pub use addresses::{external_address, socket_address};
pub use dates::is_date;
pub use faults::{ConfigEnd, ConfigFault, ConfigKind};
pub use ranges::range;
pub use reader::read;
