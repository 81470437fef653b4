//! What is told of a run.
ghost use Rattle.std.specs.Prelude.{◌≡◌, ◌<◌, ◌^◌, length, IfOk};
ghost use Rattle.run_model.specs.Parts.{parts_of};

use crate::fate::Fates;
use gal_io::{Items, NoMemory};
use state_store::{ObjectDecl, Rows, Store};
use std::alloc::Global;

/// The numbers of packets in the serial order of a run.
pub type Order = Items<u32>;

/// The rows of one object, which is known by its place among the declared ones, from 0.
#[derive(Drop)]
pub struct ObjectRows {
    pub object: u32,
    pub rows: Rows,
}

/// The rows of several objects, in order of declaration.
pub type StoreRows = Items<ObjectRows>;

/// The rows of each object of a store that isn't a table.
pub fn store_rows(
    alloc: Global,
    objects: &[ObjectDecl],
    store: &Store,
) -> Result<StoreRows, NoMemory>
    requires { length objects.now < 2 ^ 32 }
    ensures { IfOk result (λ parts. parts ≡ parts_of objects.now store.now) }
{
    let mut items = Vec::new(alloc);
    for number in 0..objects.len() {
        if !objects[number].kind.is_table() {
            let object = number as u32;
            let rows = store.rows(alloc, object)?;
            items.push(ObjectRows { object, rows })?;
        }
    }
    Ok(StoreRows::from(items))
}

/// A run as it is told.
#[derive(Drop)]
pub struct Run {
    /// The number of packets of the trace.
    pub total: u32,
    /// How many of them are decided, and how many released.
    pub decided: u32,
    pub released: u32,
    /// How many events happened, and how many of these were idle.
    pub events: u32,
    pub idle: u32,
    /// The version of the server's store, and the one that the switch shows.
    pub version: u32,
    pub visible: u32,
    /// Whether every packet of the trace was admitted and nothing is on its way.
    pub drained: bool,
    pub fates: Fates,
    /// The numbers of the decided packets in serial order.
    pub order: Order,
    /// The rows of each map, vector and integer on the server.
    pub objects: StoreRows,
    /// The rows of each replicated object, as lookups on the switch see them.
    pub switch: StoreRows,
}
