// Operations: the objects that one has touched, and what is tested of an object before it is touched.
#![tactic(auto)]

mod blocks;
mod held;
mod place;
mod table;
#[cfg(test)]
mod tests;

pub use blocks::BlockList;
pub use held::Held;
pub use place::{check_bit, check_place};
pub use table::{MOST_HELD, Table};
