// No function: specs/ has how values are combined by a polynomial, proofs/ has what such a polynomial tells of wrong
// bytes.

#![tactic(auto)]
