// Laws of binary JSON that rest on the definitions of jsonb and of the crates below it: see proofs/. There is no code here.
#![tactic(auto)]
