// The commands that the program knows, by their words.

pub mod check;
pub mod compare;
pub mod prices;
pub mod range;
pub mod session;
pub mod solve;
pub mod trail;
pub mod trial;
pub mod upgrade;
pub mod utility;
pub mod validate;
