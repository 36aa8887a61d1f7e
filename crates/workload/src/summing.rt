//! The summary of a run.
ghost use Rattle.std.specs.Prelude.{◌≡◌, ◌^◌, ◌<◌, [], ◌∷◌, length, map as list_map, sum_by, IfOk};
ghost use Rattle.prcu_model.specs.Dictionary.{map_of, IsLegal};
ghost use Rattle.prcu_model.specs.Fronts.{AreExplainable};
ghost use Rattle.prcu_model.specs.Scripts.{entries_of, default_slots_of};
ghost use Rattle.workload.specs.Draws.{IsMade};
ghost use Rattle.workload.specs.Summaries.{key_sum, value_sum, summary_with, plain_summary, counts_of, counts_after, HasRoom};

use prcu_model::{Dict, NoMemory, Reply, Scripts, Told, ToldList, Update};
use std::alloc::Global;

/// What a run came to: how many scripts and operations there were, how often each reply was told, and how many pairs the
/// dictionary had at the end, with the sums of their keys and of their values.
#[derive(Clone, Copy)]
pub struct Summary {
    pub scripts: u64,
    pub ops: u64,
    /// Puts that added their pair.
    pub new: u64,
    /// Puts that found their key.
    pub old: u64,
    /// Gets that found their key.
    pub val: u64,
    /// Operations of any kind that found no key.
    pub none: u64,
    /// Dels that took their key out.
    pub gone: u64,
    pub size: u64,
    pub keys: u64,
    pub values: u64,
}

// How often each reply was told.
#[derive(Clone, Copy, Default)]
struct Counts {
    added: u64,
    present: u64,
    valued: u64,
    absent: u64,
    removed: u64,
}

impl Counts {
    // Counts one more reply.
    fn count(&mut self, reply: Reply)
        requires { HasRoom self.old 1 }
        ensures { self.new ≡ counts_after self.old (reply ∷ []) }
    {
        match reply {
            Reply::New => self.added += 1,
            Reply::Old => self.present += 1,
            Reply::Val { .. } => self.valued += 1,
            Reply::Absent => self.absent += 1,
            Reply::Gone => self.removed += 1,
            Reply::Full | Reply::Was { .. } => {}
        }
    }

    // Counts what one script was told.
    fn count_list(&mut self, told: &[Told])
        requires { HasRoom self.old (length told.now) }
        ensures { self.new ≡ counts_after self.old (list_map (λ told. told.reply) told.now) }
    {
        for entry in told {
            self.count(entry.reply);
        }
    }
}

// How often each reply was told, to all scripts.
fn count_replies(told: &[ToldList]) -> Counts
    requires { sum_by length (entries_of told.now) < 2 ^ 64 }
    ensures { result ≡ counts_of (entries_of told.now) }
{
    let mut counts = Counts::default();
    for list in told {
        counts.count_list(list.entries());
    }
    counts
}

// The sum of the dictionary's keys, and that of its values.
fn sums_of(dict: &Dict) -> (u64, u64)
    requires keys { key_sum dict.now < 2 ^ 64 }
    requires values { value_sum dict.now < 2 ^ 64 }
    ensures keys { result.0 ≡ key_sum dict.now }
    ensures values { result.1 ≡ value_sum dict.now }
{
    let mut keys = 0;
    let mut values = 0;
    for i in 0..dict.len() {
        let (key, value) = dict.pair(i);
        keys += key;
        values += value;
    }
    (keys, values)
}

/// The summary of a made workload that was run. What its scripts were told and the history may be those of any account
/// with the default slots: the summary is always that of the scripts run one after another.
pub fn summary_of(
    alloc: Global,
    scripts: &Scripts,
    told: &[ToldList],
    history: &[Update],
) -> Result<Summary, NoMemory>
    requires made { IsMade scripts.now }
    requires legal { IsLegal history.now }
    requires explainable { AreExplainable scripts.now (entries_of told.now) history.now (default_slots_of scripts.now) }
    ensures counted { IfOk result (λ summary. summary ≡ summary_with scripts.now (entries_of told.now) (map_of history.now)) }
    ensures plain { IfOk result (λ summary. summary ≡ plain_summary scripts.now) }
{
    let script_count = u64::from(scripts.count());
    let op_count = u64::from(scripts.ops());
    let counts = count_replies(told);
    let dict = Dict::replay(alloc, history)?;
    let (keys, values) = sums_of(&dict);
    Ok(Summary {
        scripts: script_count,
        ops: op_count,
        new: counts.added,
        old: counts.present,
        val: counts.valued,
        none: counts.absent,
        gone: counts.removed,
        size: dict.len(),
        keys,
        values,
    })
}
