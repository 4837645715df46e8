ghost use Rattle.std.specs.Prelude.{◌≡◌, IfOk};

use crate::order::Order;
use std::alloc::AllocError;
use std::marker::Model;

/// Orders in their order. Contracts see the list of them.
#[derive(Drop)]
pub struct Orders {
    items: Vec<Order>,
}

impl Model for Orders {
    ghost use Rattle.std.specs.Prelude.{List};
    ghost use Rattle.office_text.specs.declared.order.Order.{Order};

    ghost Value = { List Order };

    ghost view = { λ o. o.items.items };
}

impl Orders {
    /// The list of these orders. It takes no memory.
    pub fn from_vec(orders: Vec<Order>) -> Orders
        ensures { result ≡ orders.items }
    {
        Orders { items: orders }
    }

    /// The orders, to be changed. It takes no memory.
    pub fn into_vec(self) -> Vec<Order>
        ensures { result.items ≡ self }
    {
        self.items
    }

    /// The orders.
    pub fn as_slice(&self) -> &[Order]
        ensures { result.now ≡ self.now }
    {
        self.items.as_slice()
    }

    /// The same orders once more.
    pub fn copy(&self) -> Result<Orders, AllocError>
        ensures { IfOk result (λ orders. orders ≡ self.now) }
    {
        let mut copies = Vec::new(*self.items.allocator());
        for order in self.items.as_slice() {
            copies.push(order.copy()?)?;
        }
        Ok(Orders::from_vec(copies))
    }
}
