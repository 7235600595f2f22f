//! The orders on the disks of all nodes.
ghost use Rattle.std.specs.Prelude.{◌≡◌, unwrap_or};
ghost use Rattle.node_rules.specs.Words.{numbered, set_numbered};
ghost use Rattle.run_rules.specs.Disks.{no_orders};

use crate::DiskOrders;

/// The orders on a node's disk, and none for a number past the nodes.
pub fn orders_at(orders: &[DiskOrders], node: u8) -> DiskOrders
    ensures { result ≡ unwrap_or (numbered orders.now node) no_orders }
{
    match node.checked_sub(1) {
        None => DiskOrders::none(),
        Some(place) => match orders.get(usize::from(place)) {
            None => DiskOrders::none(),
            Some(orders) => *orders,
        },
    }
}

/// Other orders on a node's disk.
pub fn set_orders(orders: &mut Vec<DiskOrders>, node: u8, new: DiskOrders)
    ensures { orders.new.items ≡ set_numbered orders.old.items node new }
{
    let Some(place) = node.checked_sub(1) else {
        return;
    };
    let place = usize::from(place);
    if place < orders.len() {
        orders[place] = new;
    }
}
