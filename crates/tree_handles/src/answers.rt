//! What many lookups tell a program that isn't Rattle.
ghost use Rattle.std.specs.Prelude.{◌≡◌, ◌≤◌, length};
ghost use Rattle.tree_handles.specs.Lanes.{answer_of, WritesAnswers};

/// What a lookup of many found. Both are numbers, so that memory with anything in it can be handed in to be written.
#[repr(C)]
#[derive(Clone, Copy, Drop)]
pub struct Answer {
    /// The key's value, and 0 where the key is absent.
    pub value: u64,
    /// 1 where the key is present, else 0.
    pub found: u64,
}

fn answer_for(value: Option<u64>) -> Answer
    ensures { result ≡ answer_of value }
{
    match value {
        Some(value) => Answer { value, found: 1 },
        None => Answer { value: 0, found: 0 },
    }
}

/// Writes what was found at the beginning of the answers, at the same indices.
pub(crate) fn write_answers(found: &[Option<u64>], answers: &mut [Answer])
    requires room { length found.now ≤ length answers.old }
    ensures { WritesAnswers answers.old found.now answers.new }
{
    for i in 0..found.len() {
        answers[i] = answer_for(found[i]);
    }
}
