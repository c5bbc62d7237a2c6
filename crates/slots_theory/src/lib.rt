#![tactic(auto)]

// What the four tables show, and that they show it with one clique more. No code.
