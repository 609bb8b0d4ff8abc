// The customer's demands as statements over the definitions, proved by the theorems of the crates below. No function.

#![tactic(auto)]
