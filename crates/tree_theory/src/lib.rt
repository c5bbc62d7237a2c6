#![tactic(auto)]

// The lines of a merge tree by the roots of the tables, level by level: that they are the lines of the tree, and what the end of a level writes. No code.
