// Which paths a document has, in which order they are listed, and what a walk of them promises: `Walks` of specs/Shown.antt. See specs/Lib.antt for the
// order in which to read. There is no code here.
#![tactic(auto)]
