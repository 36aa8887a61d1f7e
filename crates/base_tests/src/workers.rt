//! Runs of real threads, and a merge by hand.
ghost use Rattle.std.specs.Prelude.{◌≡◌, ◌^◌, ◌<◌, [], ◌∷◌, length, IfOk, vec_len};
ghost use Rattle.client_run.specs.Crews.{AreReadyFor};

use crate::same::assert_same;
use client_run::{Worker, merge, run_all};
use prcu_marks::Client;
use prcu_model::{NoMemory, Op, Reply, Scripts, Told, ToldList};
use std::alloc::Global;
use std::process::Abort;
use std::sync::Wait;
use std::sync::atomic::{AtomicU64, Ordering};
use std::test::Fail;
use std::thread;
use std::thread::Threads;

// Holds one value, and draws the numbers of its updates from a counter that it shares with others. A set waits, for a
// bounded time, until as many as `together` were drawn, and is told `Full` where they weren't.
#[derive(Drop)]
struct Clerk<'a> {
    value: u64,
    drawn: &'a AtomicU64,
    together: u64,
    left: u64,
}

impl Client for Clerk<'_> {
    ghost use Rattle.std.specs.Prelude.{◌≡◌, ◌+◌};

    ghost left = { λ clerk. clerk.left };

    ghost made = { λ before op told after. before.left ≡ after.left + 1 };

    fn call<R: Wait>(&mut self, _rt: &R, op: Op) -> Told {
        self.left -= 1;
        let was = self.value;
        let Op::Set { value, .. } = op else {
            return answer(Reply::Val { value: was }, 0);
        };
        self.value = value;
        let number = self.drawn.fetch_add(1, Ordering::SeqCst).wrapping_add(1);
        if is_drawn(self.drawn, self.together) {
            return answer(Reply::Was { value: was }, number);
        }
        answer(Reply::Full, 0)
    }

    fn remaining(&self) -> u64 {
        self.left
    }
}

// Whether so many numbers are drawn within the bounded time.
fn is_drawn(drawn: &AtomicU64, many: u64) -> bool {
    for _ in 0..10_000_000 {
        if drawn.load(Ordering::SeqCst) >= many {
            return true;
        }
        thread::yield_now();
    }
    false
}

fn answer(reply: Reply, number: u64) -> Told
    ensures { result ≡ record { reply = reply; number = number } }
{
    Told { reply, number }
}

// What a caller's clerk holds before its call of this number, if no call was left out or made twice.
fn value_at(caller: u32, call: u32) -> u64 {
    u64::from(caller) * 1_000_000 + u64::from(call.div_ceil(2))
}

// A caller's call of this number: a set of the next value, and then a get of it.
fn op_at(caller: u32, call: u32) -> Op {
    if call % 2 == 1 {
        return Op::Get { key: 0 };
    }
    Op::Set {
        key: 0,
        value: value_at(caller, call / 2 * 2 + 1),
    }
}

// What it is told.
fn reply_at(caller: u32, call: u32) -> Reply {
    let value = value_at(caller, call);
    if call % 2 == 1 {
        return Reply::Val { value };
    }
    Reply::Was { value }
}

// Scripts of so many calls for so many callers.
fn made_scripts(
    rt: &impl Abort,
    alloc: Global,
    callers: u32,
    calls: u32,
) -> Result<Scripts, NoMemory> {
    let mut scripts = Scripts::new(alloc);
    for caller in 0..callers {
        assert!(rt; scripts.count() < Scripts::MOST_SCRIPTS);
        scripts.add_script()?;
        for call in 0..calls {
            assert!(rt; 0 < scripts.count() && scripts.ops() < Scripts::MOST_OPS);
            scripts.add_op(op_at(caller, call))?;
        }
    }
    Ok(scripts)
}

// A worker for each script.
fn crew<'a>(
    alloc: Global,
    scripts: &Scripts,
    drawn: &'a AtomicU64,
    together: u64,
) -> Result<Vec<Worker<Clerk<'a>>>, NoMemory>
    ensures workers { IfOk result (λ workers. vec_len workers ≡ length scripts.now) }
    ensures ready { IfOk result (λ workers. AreReadyFor (λ clerk. clerk.left) workers.items scripts.now) }
{
    let mut workers = Vec::new(alloc);
    for i in 0..scripts.count() {
        let calls = scripts.script(i).len();
        let clerk = Clerk {
            value: value_at(i, 0),
            drawn,
            together,
            left: calls as u64,
        };
        workers.push(Worker::new(alloc, clerk, calls as u32)?)?;
    }
    Ok(workers)
}

// That a caller's answers are those to its script, that its updates' numbers rise, and that none was seen. Now they are.
fn assert_answers(rt: &impl Abort, caller: u32, calls: u32, told: &[Told], seen: &mut [bool]) {
    assert_same(rt, told.len(), calls as usize, caller);
    let mut last = 0;
    for (call, answer) in (0..calls).zip(told) {
        let reply = reply_at(caller, call);
        assert_same(rt, answer.reply, reply, (caller, call));
        if reply.tells_update() {
            assert!(rt;
                last < answer.number && answer.number <= seen.len() as u64,
                "to caller {caller} at call {call}"
            );
            last = answer.number;
            let place = (last - 1) as usize;
            assert!(rt; !seen[place], "{last} was told twice");
            seen[place] = true;
        } else {
            assert_same(rt, answer.number, 0, (caller, call));
        }
    }
}

// That a run of so many callers makes each of their calls once and in order, and that the numbers of their updates are 1 to
// their count, each once.
fn assert_run<R: Threads + Wait + Sync + Abort>(
    rt: &R,
    alloc: Global,
    callers: u32,
    calls: u32,
    together: u64,
) -> Result<(), Fail> {
    let scripts = made_scripts(rt, alloc, callers, calls)?;
    let drawn = AtomicU64::new(0);
    let mut workers = crew(alloc, &scripts, &drawn, together)?;
    run_all(rt, &mut workers, &scripts);
    let mut seen = vec![in alloc; false; drawn.load(Ordering::SeqCst) as usize]?;
    for (caller, worker) in (0..callers).zip(workers) {
        let (clerk, told) = worker.into_parts();
        assert_same(rt, clerk.remaining(), 0, caller);
        assert_answers(rt, caller, calls, told.entries(), &mut seen);
    }
    assert!(rt; seen.iter().all(|is_told| *is_told), "a number wasn't told");
    Ok(())
}

#[test]
fn a_run_makes_each_call_once_and_in_order(rt: HostRuntime) -> Result<(), Fail> {
    assert_run(&rt, rt.alloc(), 64, 4000, 0)
}

#[test]
fn two_workers_run_beside_each_other(rt: HostRuntime) -> Result<(), Fail> {
    assert_run(&rt, rt.alloc(), 2, 1, 2)
}

fn told_list(alloc: Global, answers: &[Told]) -> Result<ToldList, NoMemory>
    requires { length answers.now < 2 ^ 32 }
    ensures { IfOk result (λ list. list.entries ≡ answers.now) }
{
    let mut list = ToldList::new(alloc, answers.len() as u32)?;
    for told in answers {
        list.push(*told);
    }
    Ok(list)
}

// Two scripts, of the first two operations and of the last two.
fn two_scripts(
    alloc: Global,
    first: Op,
    second: Op,
    third: Op,
    last: Op,
) -> Result<Scripts, NoMemory>
    ensures { IfOk result (λ scripts. scripts ≡ (first ∷ second ∷ []) ∷ (third ∷ last ∷ []) ∷ []) }
{
    let mut scripts = Scripts::new(alloc);
    scripts.add_script()?;
    scripts.add_op(first)?;
    scripts.add_op(second)?;
    scripts.add_script()?;
    scripts.add_op(third)?;
    scripts.add_op(last)?;
    Ok(scripts)
}

#[test]
fn scripts_without_an_operation_have_no_history(rt: HostRuntime) -> Result<(), Fail> {
    let scripts = Scripts::new(rt.alloc());
    assert!(rt; merge(rt.alloc(), &scripts, &[])?.is_empty());
    Ok(())
}

#[test]
fn a_history_has_each_update_at_its_number(rt: HostRuntime) -> Result<(), Fail> {
    let alloc = rt.alloc();
    let put = Op::Put { key: 1, value: 10 };
    let set = Op::Set { key: 1, value: 11 };
    let del = Op::Del { key: 1 };
    let scripts = two_scripts(alloc, del, put, set, del)?;
    let told = [
        told_list(alloc, &[answer(Reply::Gone, 2), answer(Reply::New, 3)])?,
        told_list(alloc, &[answer(Reply::Absent, 0), answer(Reply::Gone, 1)])?,
    ];
    let history = merge(alloc, &scripts, &told)?;
    let expected = [(1, del), (0, del), (0, put)];
    assert_same(&rt, history.len(), expected.len(), "the length");
    for (update, wanted) in history.iter().zip(&expected) {
        assert_same(&rt, (update.caller, update.op), *wanted, *wanted);
    }
    Ok(())
}
