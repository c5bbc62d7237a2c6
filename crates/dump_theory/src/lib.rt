#![tactic(auto)]

// The rows of a dump: how many hold two parts together, and that the weights of all pairs add up to the pairs of each row. No code.
