//! Two waiters send orders, and a cook reads them until the last waiter has gone; then an office is closed with an order left.
#![tactic(auto)]

mod leftovers;
mod orders;

use crate::leftovers::left_behind;
use crate::orders::{Order, serve};
use std::io;

fn main(rt: HostRuntime) -> io::Result<()> {
    match serve(&rt, rt.alloc()) {
        Ok(read) => println!(rt; "{read} orders read")?,
        Err(refusal) => println!(rt; "not served: {refusal}")?,
    }
    match left_behind(rt.alloc(), Order { table: 3, dish: 7 }) {
        Ok(order) => println!(rt; "left: {order:?}"),
        Err(refusal) => println!(rt; "not closed: {refusal}"),
    }
}
