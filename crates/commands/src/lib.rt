// The state between two commands, and how blocks begin, what TAXA and the declarations of a data block do to it. What each function means stands in specs/.

#![tactic(auto)]

pub mod blocks;
pub mod data;
pub mod map;
pub mod state;
pub mod taxa;

pub use blocks::{begin_words, in_phase, matrix_given, no_data};
pub use data::{data_end, data_step, in_data};
pub use map::{labels_place, map_fits, order_place, types_place};
pub use state::{Data, Held, Phase, State};
pub use taxa::{taxa_end, taxa_step};
