ghost use Rattle.std.specs.Prelude.{◌≡◌, ◌++◌, ◌∷◌, [], ◌↔◌, IsTrue, IfOk};
ghost use Rattle.office_text.specs.Orders.{HasRelay, HasComputer};
ghost use Rattle.office_text.specs.Known.{HasJust, IsIn, IsRelayOf, IsComputerOf};

use crate::order::Order;
use crate::order_list::Orders;
use bf_world::TextMap;
use std::alloc::{AllocError, Global};
use std::marker::Model;

/// The orders of an office as far as they are read, and the names in them, so that none is looked for order by order. Contracts
/// see the list of the orders.
#[derive(Drop)]
pub(crate) struct OrdersSoFar {
    orders: Vec<Order>,
    /// The names of the relays.
    relays: TextMap<()>,
    /// Those of the computers.
    computers: TextMap<()>,
}

impl Model for OrdersSoFar {
    ghost use Rattle.std.specs.Prelude.{List};
    ghost use Rattle.office_text.specs.declared.order.Order.{Order};
    ghost use Rattle.office_text.specs.Known.{KnowsNamed};

    ghost Value = { List Order };

    ghost view = { λ o. o.orders.items };

    ghost invariant = { KnowsNamed };
}

impl OrdersSoFar {
    /// Before the first order.
    pub(crate) fn new(alloc: Global) -> OrdersSoFar
        ensures { result ≡ [] }
    {
        OrdersSoFar {
            orders: Vec::new(alloc),
            relays: TextMap::new(alloc),
            computers: TextMap::new(alloc),
        }
    }

    /// After this order too.
    pub(crate) fn with(self, alloc: Global, order: Order) -> Result<OrdersSoFar, AllocError>
        ensures { IfOk result (λ all. all ≡ self ++ order ∷ []) }
    {
        let OrdersSoFar {
            mut orders,
            relays,
            computers,
        } = self;
        let relays = with_relay(alloc, relays, &order)?;
        let computers = with_computer(alloc, computers, &order)?;
        orders.push(order)?;
        Ok(OrdersSoFar {
            orders,
            relays,
            computers,
        })
    }

    /// Whether one of the orders names this relay.
    pub(crate) fn has_relay(&self, name: &str) -> bool
        ensures { IsTrue result ↔ HasRelay self.now name.now }
    {
        self.relays.get(name).is_some()
    }

    /// Whether one of them names this computer.
    pub(crate) fn has_computer(&self, name: &str) -> bool
        ensures { IsTrue result ↔ HasComputer self.now name.now }
    {
        self.computers.get(name).is_some()
    }

    /// The orders themselves.
    pub(crate) fn into_orders(self) -> Orders
        ensures { result ≡ self }
    {
        let OrdersSoFar { orders, .. } = self;
        Orders::from_vec(orders)
    }
}

/// The names with that of the relay too that the order names, if it names one.
fn with_relay(
    alloc: Global,
    mut names: TextMap<()>,
    order: &Order,
) -> Result<TextMap<()>, AllocError>
    ensures { IfOk result (λ all. HasJust all (IsIn names (IsRelayOf order.now))) }
{
    match order {
        Order::Relay(name) => {
            names.put(alloc, name.as_str(), ())?;
            Ok(names)
        }
        _ => Ok(names),
    }
}

/// The names with that of the computer too that the order names, if it names one.
fn with_computer(
    alloc: Global,
    mut names: TextMap<()>,
    order: &Order,
) -> Result<TextMap<()>, AllocError>
    ensures { IfOk result (λ all. HasJust all (IsIn names (IsComputerOf order.now))) }
{
    match order {
        Order::Computer { name, .. } => {
            names.put(alloc, name.as_str(), ())?;
            Ok(names)
        }
        _ => Ok(names),
    }
}
