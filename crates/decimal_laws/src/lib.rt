// Laws of decimals that rest on the definitions of the crates groups, kept, numeral, printing, order and decimal alone: see proofs/. There is no code here.
#![tactic(auto)]
