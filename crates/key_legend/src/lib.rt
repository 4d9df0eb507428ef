// The keys that are shown: which occur in the tanks, and their letters in the strips.
#![tactic(auto)]

pub mod keys; // keys.rt: which keys occur
pub mod letters; // letters.rt: the keys of the strips, and their letters
