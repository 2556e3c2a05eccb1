// Where the value of a read came from, and what commits worked in turn leave of a value: what is said of every history, and the theorem over lists of calls. Definitions and laws, no code.
#![tactic(auto)]
