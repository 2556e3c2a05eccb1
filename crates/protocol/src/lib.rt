// The protocol: what the steps are, the book, the one-copy run and the theorem over lists of calls. Definitions and laws, no code.
#![tactic(auto)]
