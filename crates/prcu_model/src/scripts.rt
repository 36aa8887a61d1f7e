//! The scripts of a run.
ghost use Rattle.std.specs.Prelude.{◌≡◌, ◌+◌, ◌<◌, ◌≤◌, [], ◌∷◌, ◌++◌, length, OnOk, OnErr, slice_get, Some, vec_len};
ghost use Rattle.prcu_model.specs.Scripts.{with_op, op_count, put_count, default_slots_of, items_of, is_put, FitsWords, AllFit};

use crate::memory::NoMemory;
use crate::operation::Op;
use std::alloc::Global;
use std::marker::Model;

// Adds the operation to the last list, or leaves all as it was.
fn push_to_last(lists: &mut Vec<Vec<Op>>, op: Op) -> Result<(), NoMemory>
    requires { 0 < vec_len lists.old }
    ensures ok { OnOk result (items_of lists.new.items ≡ with_op (items_of lists.old.items) op) }
    ensures err { OnErr result (items_of lists.new.items ≡ items_of lists.old.items) }
{
    let last = lists.len() - 1;
    lists[last].push(op)?;
    Ok(())
}

// Whether the operation is a put. Its numbers are `u64`s, as those of each operation.
fn is_put(op: Op) -> bool
    ensures put { result ≡ is_put op }
    ensures fits { FitsWords op }
{
    match op {
        Op::Put { .. } => true,
        Op::Get { .. } => false,
        Op::Del { .. } => false,
        Op::Set { .. } => false,
    }
}

/// Lists of operations, each to be run by a caller of its own: at most 64 scripts with at most 1,048,576 operations in
/// all of them.
#[derive(Drop)]
pub struct Scripts {
    alloc: Global,
    scripts: Vec<Vec<Op>>,
    ops: u32,
    puts: u32,
}

impl Model for Scripts {
    ghost use Rattle.std.specs.Prelude.{List};
    ghost use Rattle.prcu_model.specs.declared.operation.Op.{Op};

    ghost Value = { List (List Op) };

    ghost use Rattle.prcu_model.specs.Held.{op_lists, IsHeld};

    ghost view = { op_lists };

    ghost invariant = { IsHeld };
}

impl Scripts {
    pub const MOST_SCRIPTS: u32 = 64;

    pub const MOST_OPS: u32 = 1_048_576;

    /// No script.
    pub fn new(alloc: Global) -> Scripts
        ensures { result ≡ [] }
    {
        Scripts {
            alloc,
            scripts: Vec::new(alloc),
            ops: 0,
            puts: 0,
        }
    }

    /// Begins another script, without operations. At `NoMemory` all stays as it was.
    pub fn add_script(&mut self) -> Result<(), NoMemory>
        requires { length self.old < 64 }
        ensures ok { OnOk result (self.new ≡ self.old ++ [] ∷ []) }
        ensures err { OnErr result (self.new ≡ self.old) }
    {
        self.scripts.push(Vec::new(self.alloc))?;
        Ok(())
    }

    /// Adds the operation to the last script. At `NoMemory` all stays as it was.
    pub fn add_op(&mut self, op: Op) -> Result<(), NoMemory>
        requires script { 0 < length self.old }
        requires room { op_count self.old < 1048576 }
        ensures ok { OnOk result (self.new ≡ with_op self.old op) }
        ensures err { OnErr result (self.new ≡ self.old) }
    {
        push_to_last(&mut self.scripts, op)?;
        self.ops += 1;
        if is_put(op) {
            self.puts += 1;
        }
        Ok(())
    }

    /// How many scripts there are.
    pub fn count(&self) -> u32
        ensures count { result ≡ length self.now }
        ensures limit { result ≤ 64 }
        ensures fits { AllFit self.now }
    {
        self.scripts.len() as u32
    }

    /// The operations of script `i`, counted from 0.
    pub fn script(&self, i: u32) -> &[Op]
        requires { i < length self.now }
        ensures script { slice_get self.now i ≡ Some result.now }
        ensures limit { length result.now ≤ 1048576 }
    {
        self.scripts[i as usize].as_slice()
    }

    /// The operations of all scripts.
    pub fn ops(&self) -> u32
        ensures count { result ≡ op_count self.now }
        ensures limit { result ≤ 1048576 }
    {
        self.ops
    }

    /// The puts of all scripts.
    pub fn puts(&self) -> u32
        ensures count { result ≡ put_count self.now }
        ensures limit { result ≤ 1048576 }
    {
        self.puts
    }

    /// The slots of a run that isn't given a number: one for each put and twenty for each script, and one at least.
    pub fn default_slots(&self) -> u32
        ensures { result ≡ default_slots_of self.now }
    {
        (self.puts() + 20 * self.count()).max(1)
    }
}
