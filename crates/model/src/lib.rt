// The best list and what each call answers: definitions, laws and promises. No function.
#![tactic(auto)]
