// The bytes of a number as lanes that are worked on all at once: definitions and laws, no code.
#![tactic(auto)]
