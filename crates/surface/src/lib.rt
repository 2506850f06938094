// What the functions for C promise: `specs` says it, and `proofs` that it is what the crates below tell. There is no code here, so that an edit of a definition is
// refused in seconds.
#![tactic(auto)]
