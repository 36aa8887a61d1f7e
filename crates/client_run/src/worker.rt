//! A client with the list of what it is told.
ghost use Rattle.std.specs.Prelude.{◌≡◌, ◌+◌, ◌≤◌, [], length, IfOk};
ghost use Rattle.prcu_marks.specs.Callers.{IsChain};
ghost use Rattle.client_run.specs.Crews.{IsReadyFor};

use prcu_marks::Client;
use prcu_model::{NoMemory, Op, ToldList};
use std::alloc::Global;
use std::marker::Model;
use std::sync::Wait;

/// A client, and what it was told so far. A worker may be sent to another thread where its client may.
#[derive(Drop)]
pub struct Worker<C> {
    client: C,
    told: ToldList,
}

impl<C> Model for Worker<C> {
    ghost use Rattle.client_run.specs.Crews.{Work};

    ghost Value = { Work C };

    ghost view = { λ w. record { client = w.client; told = w.told } };
}

impl<C> Worker<C> {
    /// A worker that was told nothing yet, with room for `ops` answers at least. At `NoMemory` the client is dropped.
    pub fn new(alloc: Global, client: C, ops: u32) -> Result<Worker<C>, NoMemory>
    where
        C: Drop,
        ensures client { IfOk result (λ worker. worker.client ≡ client) }
        ensures empty { IfOk result (λ worker. worker.told.entries ≡ []) }
        ensures room { IfOk result (λ worker. ops ≤ worker.told.spare) }
    {
        let told = ToldList::new(alloc, ops)?;
        Ok(Worker { client, told })
    }

    /// The client as the calls left it, and what they were told.
    pub fn into_parts(self) -> (C, ToldList)
        ensures client { result.0 ≡ self.client }
        ensures told { result.1 ≡ self.told }
    {
        (self.client, self.told)
    }
}

impl<C: Client> Worker<C> {
    // Makes the script's operations in order, and keeps what they are told. It takes no memory.
    pub(crate) fn run<R: Wait>(&mut self, rt: &R, script: &[Op])
        requires { IsReadyFor C.left self.old script.now }
        ensures chain { IsChain C.made self.old.client script.now self.new.told.entries self.new.client }
        ensures left { C.left self.old.client ≤ C.left self.new.client + length script.now }
    {
        for op in script {
            let told = self.client.call(rt, *op);
            self.told.push(told);
        }
    }
}
