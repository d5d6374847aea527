// The rules of a list and what it earns: definitions, laws and promises. No function.
#![tactic(auto)]
