// ASSUMPTIONS, after assumptions.rs: OPTIONS, and TYPESET with its lists. What each function means stands in specs/.

#![tactic(auto)]

pub mod assumptions;
pub mod characters;
pub mod heads;
pub mod items;
pub mod parts;
pub mod told;
pub mod types;
pub mod typeset;

pub use assumptions::options;
pub use typeset::parse_typeset;
