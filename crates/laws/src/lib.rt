#![tactic(auto)]

// Laws that the kit's libraries lack. There is no function here: proofs of every other crate cite proofs/.
