//! Work that is done beside other work.
ghost use Rattle.std.specs.Prelude.{◌<◌, ℕ, length, slice_index_or};
ghost use Rattle.std.specs.Thread.{IsSync};

use std::marker::{Send, Sync};
use std::sync::Wait;
use std::thread::{Threads, for_each_mut, join_mut};

/// One lane's work on what it shares with others, `C`, and the gate `G` that may hold it. No signature here names what is shared, so that
/// it may hold stored functions.
pub trait Work<C, G> {
    ghost ready: { C → Self → Type 0 };

    ghost done: { C → Self → Self → Type 0 };

    fn work<R: Wait>(&mut self, rt: &R, shared: &C, gate: &G)
        requires ready { ready shared.now self.old }
        ensures done { done shared.now self.old self.new };
}

/// What one lane's work `W` has to itself while it lasts.
pub trait Owned<W, C, G, K> {
    ghost able: { C → K → Self → W → Type 0 };

    ghost made: { C → K → Self → Self → W → W → Type 0 };

    fn work<R: Wait>(&mut self, rt: &R, shared: &C, gate: &G, config: &K, one: &mut W)
        requires able { able shared.now config.now self.old one.old }
        ensures made { made shared.now config.now self.old self.new one.old one.new };
}

/// Does all work at once: each in a thread of its own where one can be made.
pub fn work_beside<R: Threads + Wait + Sync, C: Sync, G: Sync, W: Work<C, G> + Send>(
    rt: &R,
    shared: &C,
    gate: &G,
    works: &mut [W],
)
    requires { (k : ℕ) (d : W) → k < length works.old → W.ready shared.now (slice_index_or works.old k d) }
    ensures { (k : ℕ) (d : W) → k < length works.old → W.done shared.now (slice_index_or works.old k d) (slice_index_or works.new k d) }
{
    if works.is_empty() {
        return;
    }
    let each = works.len();
    let one = move |_place: usize, work: &mut W|
        requires { W.ready shared.now work.now }
        ensures { W.done shared.entry.now work.entry.now work.exit.now }
    { work.work(rt, shared, gate) };
    for_each_mut(rt, works, each, &one);
}

/// Does all work at once in the same way, and a piece of its own in this thread beside it.
pub(crate) fn work_with<
    R: Threads + Wait + Sync,
    C: Sync,
    G: Sync,
    W: Work<C, G> + Send,
    F: FnMut(),
>(rt: &R, shared: &C, gate: &G, works: &mut [W], own: &mut F)
    requires ready { (k : ℕ) (d : W) → k < length works.old → W.ready shared.now (slice_index_or works.old k d) }
    requires own { F.pre own.old }
    ensures done { (k : ℕ) (d : W) → k < length works.old → W.done shared.now (slice_index_or works.old k d) (slice_index_or works.new k d) }
    ensures own { F.step own.old tt own.new }
{
    let mut others = ||
        requires { IsSync R.row × IsSync C.row × IsSync G.row
            × ((k : ℕ) (d : W) → k < length works.now → W.ready shared.now (slice_index_or works.now k d)) }
        ensures { (k : ℕ) (d : W) → k < length works.entry.now
            → W.done shared.entry.now (slice_index_or works.entry.now k d) (slice_index_or works.exit.now k d) }
    { work_beside(rt, shared, gate, works) };
    join_mut(rt, &mut others, own);
}

/// Does all work at once in the same way, but the first, which has `owned` to itself, in this thread.
pub fn work_first<
    R: Threads + Wait + Sync,
    C: Sync,
    G: Sync,
    K,
    W: Work<C, G> + Send,
    O: Owned<W, C, G, K>,
>(rt: &R, shared: &C, gate: &G, config: &K, owned: &mut O, works: &mut [W])
    requires within { 0 < length works.old }
    requires able { (d : W) → O.able shared.now config.now owned.old (slice_index_or works.old 0 d) }
    requires ready { (k : ℕ) (d : W) → 0 < k → k < length works.old → W.ready shared.now (slice_index_or works.old k d) }
    ensures made { (d : W) → O.made shared.now config.now owned.old owned.new (slice_index_or works.old 0 d) (slice_index_or works.new 0 d) }
    ensures done { (k : ℕ) (d : W) → 0 < k → k < length works.old
        → W.done shared.now (slice_index_or works.old k d) (slice_index_or works.new k d) }
{
    let (front, others) = works.split_at_mut(1);
    let one = &mut front[0];
    let mut own = ||
        requires { O.able shared.now config.now owned.now one.now }
        ensures { O.made shared.entry.now config.entry.now owned.entry.now owned.exit.now one.entry.now one.exit.now }
    { owned.work(rt, shared, gate, config, one) };
    work_with(rt, shared, gate, others, &mut own);
}
