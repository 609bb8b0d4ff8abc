// What a proposal for a received word is, and when it is taken (document 02, 12/14). There is no function here: what
// judges and makes proposals stands in `mending`.

#![tactic(auto)]
