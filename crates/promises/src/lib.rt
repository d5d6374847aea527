// What follows from the definitions together: definitions, laws and promises. No function.
#![tactic(auto)]
