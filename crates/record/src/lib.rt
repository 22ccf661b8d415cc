// Reading to record and back, the written form and the lookup. The answers of the calls; what they are stands in specs/.

#![tactic(auto)]

use lexer::{Fault, Place};

// What a call that writes into a lent buffer answers: how many bytes it wrote, or why none and where.
pub type Answer = Result<usize, Fault<Place>>;
