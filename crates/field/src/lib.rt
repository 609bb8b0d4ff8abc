// The field of 256 elements that correction bytes are worked out in (CCSDS 131.0-B-2, 4.3.3). No function: see specs/.

#![tactic(auto)]
