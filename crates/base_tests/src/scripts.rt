//! Scripts for the tests of other modules.
use prcu_model::{NoMemory, Op, Scripts};
use std::alloc::Global;
use std::process::Abort;

/// A script of each of these lists.
pub fn scripts_of(rt: &impl Abort, alloc: Global, lists: &[&[Op]]) -> Result<Scripts, NoMemory> {
    let mut scripts = Scripts::new(alloc);
    for list in lists {
        assert!(rt; scripts.count() < Scripts::MOST_SCRIPTS);
        scripts.add_script()?;
        for op in *list {
            assert!(rt; 0 < scripts.count() && scripts.ops() < Scripts::MOST_OPS);
            scripts.add_op(*op)?;
        }
    }
    Ok(scripts)
}
