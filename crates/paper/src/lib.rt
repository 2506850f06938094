// Document 01's examples over the definitions of the crates decimal, jsonb and walk: see specs/ and proofs/. There is no code here.
#![tactic(auto)]
