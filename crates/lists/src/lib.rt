// Lists of any elements: definitions and laws, no code.
#![tactic(auto)]
