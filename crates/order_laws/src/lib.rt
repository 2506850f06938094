// That the order of decimals is an order, and when two are equal by what they print: laws of what `Decimal::compare` and `Decimal::print` answer. The
// statements are specs/Order.antt; proofs/Order.antt proves each under a name to cite. There is no code here.
#![tactic(auto)]
