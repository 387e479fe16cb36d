// The hands of a pool that is done with.

ghost use Rattle.std.specs.Prelude.{◌≡◌, []};
ghost use Rattle.outside.specs.Rises.{Risen, TellSame};
ghost use Rattle.worker_pool.specs.Pools.{hands};

use fixed_query::FixedPool;
use job_board::SmallWork;
use outside::Hand;
use std::sync::Wait;
use std::thread::Threads;

/// The hands of a pool, once all its pieces have ended. What they did until then is counted, and recorded nowhere.
pub fn gathered<R, H>(rt: &R, pool: FixedPool<H>) -> Vec<H>
where
    R: Threads + Wait,
    H: Hand<SmallWork> + Drop,
    ensures runs { Risen H.runs (hands pool) result.items 0 }
    ensures faults { Risen H.faults (hands pool) result.items 0 }
    ensures fails { TellSame H.fails (hands pool) result.items }
    ensures nothing { pool.in_flight ≡ [] → result.items ≡ pool.free }
{
    let mut pool = pool;
    for _ in rt.forever() {
        if pool.wait_any(rt).is_none() {
            return pool.into_hands();
        }
    }
    unreachable!()
}
