//! Lists in memory that a caller lends. Such memory stands in for that of the C library where a program must not
//! ask for any, as on a page. How it is given out is this processor's own choice.
#![tactic(auto)]

mod arena;
mod lent;
mod units;

pub use arena::{Arena, arena_over};
pub use lent::Lent;
pub use units::Units;
