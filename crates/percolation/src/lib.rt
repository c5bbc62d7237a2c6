#![tactic(auto)]

// The definitions of document 01 (specs/) and the laws that hold of them (proofs/). No code: the crates that compute cite these.
