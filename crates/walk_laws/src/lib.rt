// Laws of the walk that rest on its definitions alone: the promise `Walks` means what document 01 says. See specs/Promise.antt and proofs/. There is no
// code here.
#![tactic(auto)]
