// The decisions as a host is given them: the verdict's number.
ghost use Rattle.std.specs.Prelude.{◌≡◌};
ghost use Rattle.verdicts.specs.Decisions.{decides};
ghost use Rattle.verdicts.specs.Expected as expected;
ghost use Rattle.verdicts.specs.Verdicts.{code};
ghost use Rattle.orders.specs.Orders.{matching, order_of};

use orders::Order;

pub fn exact(text: &[u8], value: &[u8]) -> u8
    ensures { result ≡ code (decides (expected.exact text.now) value.now) }
{
    u8::from(crate::decide::exact(text, value))
}

pub fn pattern(pattern: &[u8], value: &[u8]) -> u8
    ensures { result ≡ code (decides (expected.regex pattern.now) value.now) }
{
    u8::from(crate::decide::regex(pattern, value))
}

// The kinds are numbered as `order_of` says; numbers, since a host gives them (the C interface).
pub fn ordering(kind: u8, n: i64, value: &[u8]) -> u8
    ensures { result ≡ code (decides (matching (order_of kind) n) value.now) }
{
    u8::from(orders::compare(Order::from(kind), n, value))
}
