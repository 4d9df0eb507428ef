// No code: laws of choices, lists and masks that the kit does not state, for the crates above.
#![tactic(auto)]
