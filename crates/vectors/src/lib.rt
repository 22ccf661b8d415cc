// Checks by computation that are too long for the crates they speak of: chosen questions with the oracle's answers (specs/, made from
// host/definitions/chosen), and White_Space over every character (proofs/Spaces.antt). It has no code.

#![tactic(auto)]
