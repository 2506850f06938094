// What follows from the definitions of dates and times: see specs/ and proofs/. There is no code here.
#![tactic(auto)]
