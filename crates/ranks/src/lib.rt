// Marks in their order. It shows how a proof cites a law of the order: two comparisons tell of three marks, since less-or-equal carries through a third.
#![tactic(auto)]

ghost use Rattle.std.specs.Prelude.{◌≡◌};
ghost use Rattle.order_laws.specs.Order.{is_le};
ghost use Rattle.ranks.specs.Ranks.{in_order};

use decimal::Decimal;
use refusal::Refusal;
use std::cmp::Ordering;

// Less or equal, and no refusal.
fn is_le(order: Result<Ordering, Refusal>) -> bool
    ensures { result ≡ is_le order }
{
    order.is_ok_and(Ordering::is_le)
}

// Whether three marks stand in order, the lowest first: none is above a later one. A record that is no decimal stands in no order.
pub fn in_order(low: Decimal, middle: Decimal, high: Decimal) -> bool
    ensures { result ≡ in_order low middle high }
{
    is_le(low.compare(middle)) && is_le(middle.compare(high))
}
