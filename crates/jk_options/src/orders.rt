//! The names of the orders of packets.

ghost use Rattle.std.specs.Prelude.{◌≡◌, MatchOption};
ghost use Rattle.jk_options.specs.Orders.{order_text, IsNoOrder};

use jk_marks::Order;

/// The name of an order (T.800 A.6.1, table A.16).
pub fn order_name(order: Order) -> &'static str
    ensures { result.now ≡ order_text order }
{
    match order {
        Order::Lrcp => "LRCP",
        Order::Rlcp => "RLCP",
        Order::Rpcl => "RPCL",
        Order::Pcrl => "PCRL",
        Order::Cprl => "CPRL",
    }
}

/// The order of a name.
pub fn order_named(name: &str) -> Option<Order>
    ensures { MatchOption result (IsNoOrder name.now) (λ order. order_text order ≡ name.now) }
{
    match name {
        "LRCP" => Some(Order::Lrcp),
        "RLCP" => Some(Order::Rlcp),
        "RPCL" => Some(Order::Rpcl),
        "PCRL" => Some(Order::Pcrl),
        "CPRL" => Some(Order::Cprl),
        _ => None,
    }
}
