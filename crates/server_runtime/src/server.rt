//! The server.
ghost use Rattle.std.specs.Prelude.{◌≡◌, ◌↔◌, ◌<◌, ◌-◌, ◌^◌, Err, IfOk, OnErr};
ghost use Rattle.state_store.specs.Kept.{IsKept};
ghost use Rattle.flat_ir.specs.Program.{program_of};
ghost use Rattle.split_model.specs.Bounds.{IsBounded};
ghost use Rattle.split_model.specs.Layouts.{up_layout};
ghost use Rattle.split_model.specs.Legal.{IsLegal};
ghost use Rattle.transfer_header.specs.Frames.{IsFrame};
ghost use Rattle.state_store.specs.Once.{kept_prop};
ghost use Rattle.server_runtime.specs.Serving.{version_after};

use crate::plan::ServerPlan;
use crate::run::answer;
use crate::served::{ServeError, Served};
use flat_ir::Flat;
use gal_io::NoMemory;
use split_model::Split;
use state_store::Store;
use std::alloc::Global;
use writeback_table::Updates;

/// The server's part of a split program at work, with the store that it keeps.
#[derive(Drop)]
pub struct Server {
    alloc: Global,
    plan: ServerPlan,
    store: Store,
    version: u32,
    evaluated: u32,
    ghost kept: { IsKept plan.program.objects store } by { kept_prop plan.program.objects store },
}

// How many versions there are with these changes.
fn version_after(version: u32, updates: &Updates) -> u32
    requires { version < 2 ^ 32 - 1 }
    ensures { result ≡ version_after version updates.now }
{
    if updates.is_empty() {
        version
    } else {
        version + 1
    }
}

impl Server {
    ghost use Rattle.server_runtime.specs.Serving.{IsServed};
    ghost use Rattle.server_runtime.specs.Views.{server_of};

    /// A server over a store, with version 0. It keeps copies of the program and of the split.
    pub fn new(alloc: Global, f: &Flat, s: &Split, store: Store) -> Result<Server, NoMemory>
        requires bounded { IsBounded (program_of f.now) }
        requires legal { IsLegal (program_of f.now) s.now }
        requires kept { IsKept f.now.objects store }
        ensures { IfOk result (λ made. server_of made
            ≡ record { program = program_of f.now; split = s.now; store = store; version = 0; evaluated = 0 }) }
    {
        let plan = ServerPlan::of(alloc, f, s)?;
        Ok(Server {
            alloc,
            plan,
            store,
            version: 0,
            evaluated: 0,
        })
    }

    /// What comes of a frame that came up. The numbers that the frame hands up are taken as they are. All memory is
    /// taken before the store changes: after an error the server is as before.
    pub fn serve(&mut self, frame: &[u8]) -> Result<Served, ServeError>
        requires { (server_of self.old).version < 2 ^ 32 - 1 }
        ensures ok { IfOk result (λ served.
            IsServed (server_of self.old) frame.now served (server_of self.new)) }
        ensures malformed { let before = server_of self.old in
            (result ≡ Err ServeError.Malformed)
            ↔ (¬ (IsFrame 1 (up_layout before.program before.split) frame.now)) }
        ensures err { OnErr result (server_of self.new ≡ server_of self.old) }
    {
        let ran = answer(self.alloc, &mut self.plan, &mut self.store, frame)?;
        self.evaluated = ran.evaluated;
        self.version = version_after(self.version, &ran.updates);
        Ok(Served {
            number: ran.number,
            down: ran.down,
            version: self.version,
            updates: ran.updates,
        })
    }

    /// How many versions of the replicated objects there were since the server began: one for each packet that
    /// changed one of them.
    pub fn version(&self) -> u32
        ensures { result ≡ (server_of self.now).version }
    {
        self.version
    }

    /// The store, which keeps what was declared.
    pub fn store(&self) -> &Store
        ensures store { result.now ≡ (server_of self.now).store }
        ensures kept { IsKept (server_of self.now).program.objects result.now }
    {
        &self.store
    }

    /// How many instructions other than consts and fields the last call of `serve` that gave no error evaluated; 0
    /// before the first.
    pub fn evaluated(&self) -> u32
        ensures { result ≡ (server_of self.now).evaluated }
    {
        self.evaluated
    }
}
