// What UTF-8 is by RFC 3629, and where bytes break that are none: its grammar, and a machine that says the same as a function. See specs/ and proofs/. There
// is no code here.
#![tactic(auto)]
