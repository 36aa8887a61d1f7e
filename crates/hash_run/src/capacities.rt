//! How many slots the classes need.
ghost use Rattle.std.specs.Prelude.{◌≡◌, ◌+◌, ◌≤◌, ◌++◌, IfOk, OnOk, length, sum};
ghost use Rattle.std.specs.FinMap as map;
ghost use Rattle.prcu_model.specs.Scripts.{put_count};
ghost use Rattle.hash_run.specs.Capacities.{puts_of, all_puts, put_keys, class_counts, AreCapacities};

use prcu_model::{Dict, NoMemory, Op, Scripts, Update};
use std::alloc::Global;

/// The slots that each class needs so that no put is told that none is left: one for each key of the class that a put names.
pub(crate) fn capacities_for(alloc: Global, scripts: &Scripts) -> Result<[u32; 64], NoMemory>
    ensures capacities { IfOk result (λ capacities. AreCapacities scripts.now capacities) }
    ensures few { IfOk result (λ capacities. sum capacities ≤ 1048576) }
{
    prove!(scripts.ops() <= Scripts::MOST_OPS);
    let puts = puts_of_scripts(alloc, scripts)?;
    let keys = Dict::replay(alloc, &puts)?;
    let mut capacities = [0; 64];
    count_classes(&mut capacities, &keys);
    Ok(capacities)
}

// The puts of all scripts, as updates of whatever caller.
fn puts_of_scripts(alloc: Global, scripts: &Scripts) -> Result<Vec<Update>, NoMemory>
    ensures { IfOk result (λ puts. puts.items ≡ all_puts scripts.now) }
{
    let mut puts = Vec::new(alloc);
    for i in 0..scripts.count() {
        push_puts(&mut puts, scripts.script(i))?;
    }
    Ok(puts)
}

// Adds the puts of a script, as updates of whatever caller.
fn push_puts(puts: &mut Vec<Update>, script: &[Op]) -> Result<(), NoMemory>
    ensures { OnOk result (puts.new.items ≡ puts.old.items ++ puts_of script.now) }
{
    for op in script {
        if let Op::Put { .. } = op {
            puts.push(Update { caller: 0, op: *op })?;
        }
    }
    Ok(())
}

// Adds 1 to the count of its class for each key.
fn count_classes(counts: &mut [u32], keys: &Dict)
    requires classes { length counts.old ≡ 64 }
    requires few { sum counts.old + map.len keys.now ≤ 1048576 }
    ensures { counts.new ≡ class_counts counts.old (map.entries keys.now) }
{
    for i in 0..keys.len() {
        let (key, _) = keys.pair(i);
        counts[(key % 64) as usize] += 1;
    }
}
