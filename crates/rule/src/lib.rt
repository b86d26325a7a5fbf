// Why the cost table's rule is right: definitions and theorems alone, no code.
#![tactic(auto)]
