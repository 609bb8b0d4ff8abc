// Which patterns of inverted bits the block check cannot miss. No function: see proofs/.

#![tactic(auto)]
