#![tactic(auto)]

// Demand 3 as theorems over what the calls must do, so that they hold of every program whose calls do that. No code.
