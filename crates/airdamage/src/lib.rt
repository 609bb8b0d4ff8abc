// What damage of a frame in chips is always seen (document 02, 13/14). No function: receiving stands in `radio`.

#![tactic(auto)]
