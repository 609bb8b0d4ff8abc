// What damage of a frame is always seen (document 02, 13/14). No function: reading stands in `frame`, see specs/.

#![tactic(auto)]
