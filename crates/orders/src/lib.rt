// Matchers that compare numbers.
#![tactic(auto)]

ghost use Rattle.std.specs.Prelude.{◌≡◌};
ghost use Rattle.verdicts.specs.Decisions.{decides, passed_if};
ghost use Rattle.orders.specs.Orders.{holding, matching, order_of};

use verdicts::Verdict;

// How a value is compared with a matcher's number.
#[derive(Clone, Copy)]
pub enum Order {
    GreaterThan,
    LessThan,
    GreaterOrEqual,
    LessOrEqual,
}

#[tactic(auto, unfolding(verdicts::specs::Decisions::passed_if))]
pub fn passed_if(b: bool) -> Verdict
    ensures { result ≡ passed_if b }
{
    if b { Verdict::Passed } else { Verdict::Failed }
}

// The order that a host's number says.
impl From<u8> for Order {
    ghost from_gives = { λ n o. o ≡ order_of n };

    #[tactic(auto, unfolding(crate::specs::Orders::order_of))]
    fn from(n: u8) -> Order {
        match n {
            1 => Order::GreaterThan,
            2 => Order::LessThan,
            3 => Order::GreaterOrEqual,
            _ => Order::LessOrEqual,
        }
    }
}

// Whether the number v passes.
#[tactic(auto, unfolding(crate::specs::Orders::holding))]
fn holds(order: Order, n: i64, v: i64) -> bool
    ensures { result ≡ holding order n v }
{
    match order {
        Order::GreaterThan => n < v,
        Order::LessThan => v < n,
        Order::GreaterOrEqual => n <= v,
        Order::LessOrEqual => v <= n,
    }
}

// A value that is no i64 fails.
#[tactic(auto, unfolding(crate::specs::Orders::matching, verdicts::specs::Decisions::decides, crate::specs::Orders::holding, verdicts::specs::Decisions::ordered))]
pub fn compare(order: Order, n: i64, value: &[u8]) -> Verdict
    ensures { result ≡ decides (matching order n) value.now }
{
    match values::number::parse_i64(value) {
        Some(v) => passed_if(holds(order, n, v)),
        None => Verdict::Failed,
    }
}
