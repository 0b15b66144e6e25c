//! A table of orders that were changed.

ghost use Rattle.std.specs.Prelude.{◌≡◌, ◌<◌, ◌≤◌, ℕ, [], length, Some, IfErr, OnOk, OnErr};
ghost use Rattle.std.specs.Option.{option_map_or};
ghost use Rattle.hla_base.specs.declared.fault.Fault.TheVariants.{OutOfMemory};
ghost use Rattle.hla_base.specs.Tables.{upd};
ghost use Rattle.hla_orders.specs.Orders.{order_at, orders_given, AreUpTo};

use hla_base::Fault;
use hla_catalogue::Order;
use std::alloc::Global;
use std::marker::Model;

/// The orders that were given to attributes or to interaction classes, by their numbers from 1. While none was given it is
/// no larger than a pointer; the first one takes room for all numbers, and a look-up takes constant time. Contracts see a
/// list, which `order_at` reads by number.
#[derive(Debug, Drop)]
pub struct ChangedOrders {
    table: Option<Box<Vec<Option<Order>>>>,
}

impl Model for ChangedOrders {
    ghost use Rattle.std.specs.Prelude.{List, Option, []};
    ghost use Rattle.std.specs.Option.{option_map_or};
    ghost use Rattle.hla_catalogue.specs.declared.declared.Order.{Order};

    ghost Value = { List (Option Order) };

    ghost view = { λ c. option_map_or (λ t. t.value.items) c.table [] };
}

/// Makes a table longer, so that each number up to this one has a place; `OutOfMemory`, and the table as it was, where the
/// growth was refused.
fn make_room(orders: &mut Vec<Option<Order>>, count: usize) -> Result<(), Fault>
    ensures same { (n : ℕ) → order_at orders.new.items n ≡ order_at orders.old.items n }
    ensures ok { OnOk result (count ≤ length orders.new.items) }
    ensures err { IfErr result (λ e. e ≡ Fault.OutOfMemory) }
    ensures unchanged { OnErr result (orders.new.items ≡ orders.old.items) }
{
    if orders.len() >= count {
        return Ok(());
    }
    match orders.resize(count, None) {
        Ok(()) => Ok(()),
        Err(_) => Err(Fault::OutOfMemory),
    }
}

/// A number that has a place is given an order.
fn put(orders: &mut Vec<Option<Order>>, number: u32, order: Order)
    requires some { 0 < number }
    requires within { number ≤ length orders.old.items }
    ensures given { order_at orders.new.items
        ≡ upd (order_at orders.old.items) number (Some order) }
    ensures room { length orders.new.items ≡ length orders.old.items }
{
    orders[number as usize - 1] = Some(order);
}

impl ChangedOrders {
    /// No order was changed; it takes no memory.
    pub fn new() -> ChangedOrders
        ensures { result ≡ [] }
    {
        ChangedOrders { table: None }
    }

    /// The order that a number was given last; `None` where it was given none.
    pub fn get(&self, number: u32) -> Option<Order>
        ensures { result ≡ order_at self.now number }
    {
        if number == 0 {
            return None;
        }
        match &self.table {
            Some(orders) => orders.get(number as usize - 1).copied().unwrap_or(None),
            None => None,
        }
    }

    /// Takes room for the numbers up to this one; `OutOfMemory`, and all as it was, where it was refused. No order changes,
    /// either way.
    fn reserve(&mut self, alloc: Global, count: usize) -> Result<(), Fault>
        ensures same { (n : ℕ) → order_at self.new n ≡ order_at self.old n }
        ensures ok { OnOk result (count ≤ length self.new) }
        ensures err { IfErr result (λ e. e ≡ Fault.OutOfMemory) }
        ensures unchanged { OnErr result (self.new ≡ self.old) }
    {
        match &mut self.table {
            Some(orders) => make_room(orders, count),
            None => {
                let mut orders = Vec::new(alloc);
                make_room(&mut orders, count)?;
                match Box::new(alloc, orders) {
                    Ok(table) => {
                        self.table = Some(table);
                        Ok(())
                    }
                    Err(_) => Err(Fault::OutOfMemory),
                }
            }
        }
    }

    /// A number that has a place is given an order.
    fn set(&mut self, number: u32, order: Order)
        requires some { 0 < number }
        requires within { number ≤ length self.old }
        ensures given { order_at self.new ≡ upd (order_at self.old) number (Some order) }
        ensures room { length self.new ≡ length self.old }
    {
        if let Some(orders) = &mut self.table {
            put(orders, number, order);
        }
    }

    /// A number from 1 to `count` is given an order; `OutOfMemory`, and all as it was, where room for `count` numbers was
    /// refused.
    pub fn give_one(
        &mut self,
        alloc: Global,
        count: usize,
        number: u32,
        order: Order,
    ) -> Result<(), Fault>
        requires some { 0 < number }
        requires within { number ≤ count }
        ensures ok { OnOk result (order_at self.new ≡ upd (order_at self.old) number (Some order)) }
        ensures err { IfErr result (λ e. e ≡ Fault.OutOfMemory) }
        ensures unchanged { OnErr result (self.new ≡ self.old) }
    {
        self.reserve(alloc, count)?;
        self.set(number, order);
        Ok(())
    }

    /// These numbers, each from 1 to `count`, are given an order; `OutOfMemory`, and all as it was, where room for `count`
    /// numbers was refused.
    pub fn give(
        &mut self,
        alloc: Global,
        count: usize,
        numbers: &[u32],
        order: Order,
    ) -> Result<(), Fault>
        requires { AreUpTo count numbers.now }
        ensures ok { OnOk result
            (order_at self.new ≡ orders_given (order_at self.old) numbers.now order) }
        ensures err { IfErr result (λ e. e ≡ Fault.OutOfMemory) }
        ensures unchanged { OnErr result (self.new ≡ self.old) }
    {
        self.reserve(alloc, count)?;
        for number in numbers {
            self.set(*number, order);
        }
        Ok(())
    }
}
