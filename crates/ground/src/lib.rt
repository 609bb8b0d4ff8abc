// Definitions and laws that every crate shares and the kit lacks. There is no function here.

#![tactic(auto)]
