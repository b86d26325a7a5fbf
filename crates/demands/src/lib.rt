// What document 01 demands, as theorems of the promises: definitions and theorems alone, no code.
#![tactic(auto)]
