// Hands, and the pieces of work that they are away with.

ghost use Rattle.std.specs.Prelude.{◌≡◌, ◌+◌, ◌<◌, ◌≤◌, ◌↔◌, [], None, IfErr, IfOk, IfSome, OnErr, OnOk, length, vec_capacity, vec_len};
ghost use Rattle.worker_pool.specs.Answered.{CanRun, HasAnswered, HasRun};
ghost use Rattle.worker_pool.specs.Pools.{HasLeft, IsLanded, IsStarted};
ghost use Rattle.worker_pool.specs.declared.piece.Piece.TheVariants as piece_of;

use crate::flight::{Assignment, Done, Finished, Flight, launch};
use crate::gate::Gate;
use crate::list::{put, take_at};
use crate::piece::{Piece, PieceEnd, QueryPiece, Work};
use outside::{Hand, StepWork};
use std::alloc::{AllocError, Global};
use std::marker::Model;
use std::sync::{Arc, Wait};
use std::thread::Threads;

/// Hands that do steps of the kind `K` and queries of the type `Q`, which end as an `E`.
#[derive(Drop)]
pub struct Pool<K, H, E, Q>
where
    K: StepWork,
    H: Hand<K> + Drop,
    E: Drop,
    Q: QueryPiece<E> + Drop,
{
    free: Vec<H>,
    flights: Vec<Flight<K, H, E, Q>>,
    done: Vec<Done<K, H, E, Q>>,
    gate: Arc<Gate>,
}

impl<K, H, E, Q> Model for Pool<K, H, E, Q>
where
    K: StepWork,
    H: Hand<K> + Drop,
    E: Drop,
    Q: QueryPiece<E> + Drop,
{
    ghost use Rattle.std.specs.Prelude.{◌+◌, ◌≤◌, ◌++◌, vec_capacity, vec_len};
    ghost use Rattle.worker_pool.specs.Pools.{PoolModel};

    ghost Value = { PoolModel H Q };

    ghost view = { λ p. record { free = p.free.items; in_flight = p.done.items ++ p.flights.items } };

    ghost invariant = { λ p. vec_len p.free + (vec_len p.done + vec_len p.flights) ≤ vec_capacity p.free };
}

// The place of the flight with this seat.
fn place_of<K, H, E, Q>(flights: &[Flight<K, H, E, Q>], seat: usize) -> Option<usize>
where
    K: StepWork,
    H: Hand<K> + Drop,
    E: Drop,
    Q: QueryPiece<E> + Drop,
    ensures { IfSome result (λ place. place < length flights.now) }
{
    flights.iter().position(|flight| flight.seat() == seat)
}

// The first seat that no flight has.
fn free_seat<K, H, E, Q>(flights: &[Flight<K, H, E, Q>]) -> usize
where
    K: StepWork,
    H: Hand<K> + Drop,
    E: Drop,
    Q: QueryPiece<E> + Drop,
    ensures { result ≤ length flights.now }
{
    for seat in 0..flights.len() {
        if place_of(flights, seat).is_none() {
            return seat;
        }
    }
    flights.len()
}

// Handles for a thread, and room for a piece among both.
fn prepare<R: Clone + Drop, A: Drop, B: Drop>(
    rt: &R,
    gate: &Arc<Gate>,
    flights: &mut Vec<A>,
    done: &mut Vec<B>,
) -> Result<(R, Arc<Gate>), AllocError>
    ensures flights { flights.new.items ≡ flights.old.items }
    ensures done { done.new.items ≡ done.old.items }
    ensures flights_len { vec_len flights.new ≡ vec_len flights.old }
    ensures done_len { vec_len done.new ≡ vec_len done.old }
    ensures flights_room { OnOk result (vec_len flights.new < vec_capacity flights.new) }
    ensures done_room { OnOk result (vec_len done.new < vec_capacity done.new) }
{
    flights.reserve(1)?;
    done.reserve(1)?;
    let theirs = rt.clone()?;
    Ok((theirs, gate.clone()?))
}

// A piece that was done here, with its hand.
fn next_done<K, H, E, Q>(done: &mut Vec<Done<K, H, E, Q>>) -> Finished<H, E>
where
    K: StepWork,
    H: Hand<K> + Drop,
    E: Drop,
    Q: QueryPiece<E> + Drop,
    requires { 0 < vec_len done.old }
    ensures ended { HasLeft (HasAnswered (HasRun H.honest K.is_task K.text H.runs H.faults H.fails H.calls) Q.line_of Q.ends) result.end result.hand done.old.items done.new.items }
    ensures len { vec_len done.new + 1 ≡ vec_len done.old }
{
    take_at(done, 0).into_finished()
}

// A piece whose thread has put its flag up, with its hand.
fn next_landed<K, R, H, E, Q>(
    rt: &R,
    gate: &Gate,
    flights: &mut Vec<Flight<K, H, E, Q>>,
) -> Finished<H, E>
where
    K: StepWork,
    R: Threads + Wait,
    H: Hand<K> + Drop,
    E: Drop,
    Q: QueryPiece<E> + Drop,
    requires { 0 < vec_len flights.old }
    ensures ended { HasLeft (HasAnswered (HasRun H.honest K.is_task K.text H.runs H.faults H.fails H.calls) Q.line_of Q.ends) result.end result.hand flights.old.items flights.new.items }
    ensures len { vec_len flights.new + 1 ≡ vec_len flights.old }
{
    let seat = gate.wait_any(rt);
    let place = place_of(flights.as_slice(), seat).unwrap_or(0);
    take_at(flights, place).land(rt)
}

impl<K, H, E, Q> Pool<K, H, E, Q>
where
    K: StepWork,
    H: Hand<K> + Drop,
    E: Drop,
    Q: QueryPiece<E> + Drop,
{
    /// A pool of these hands, with nothing in flight. They come back where no memory is found for it.
    pub fn new(alloc: Global, hands: Vec<H>) -> Result<Pool<K, H, E, Q>, (Vec<H>, AllocError)>
        ensures ok { IfOk result (λ pool. pool ≡ record { free = hands.items; in_flight = [] }) }
        ensures back { IfErr result (λ refused. refused.0 ≡ hands) }
    {
        let gate = match Gate::new(alloc, hands.len()) {
            Ok(gate) => gate,
            Err(e) => return Err((hands, e)),
        };
        match Arc::new(alloc, gate) {
            Ok(gate) => Ok(Pool {
                free: hands,
                flights: Vec::new(alloc),
                done: Vec::new(alloc),
                gate,
            }),
            Err(_) => Err((hands, AllocError)),
        }
    }

    /// How many hands are free.
    pub fn free(&self) -> usize
        ensures { result ≡ length self.now.free }
    {
        self.free.len()
    }

    /// The hands, of a pool that is done with.
    pub fn into_hands(self) -> Vec<H>
        requires { self.in_flight ≡ [] }
        ensures { result.items ≡ self.free }
    {
        self.free
    }

    // Starts a piece. Where memory is wanting it comes back, and the pool is as before.
    fn start_piece<R>(
        &mut self,
        rt: &R,
        alloc: Global,
        piece: Piece<Q>,
    ) -> Result<(), (Piece<Q>, AllocError)>
    where
        R: Threads + Wait + Clone + Send + Sync + Drop + 'static,
        K: Send + 'static,
        H: Send + 'static,
        E: Send + 'static,
        Q: Send + 'static,
        requires free { 0 < length self.old.free }
        requires can { CanRun Q.can_run piece }
        ensures ok { OnOk result (IsStarted piece self.old self.new) }
        ensures err { OnErr result (self.new ≡ self.old) }
        ensures back { IfErr result (λ refused. refused.0 ≡ piece) }
    {
        let (theirs, gate) = match prepare(rt, &self.gate, &mut self.flights, &mut self.done) {
            Ok(ready) => ready,
            Err(e) => return Err((piece, e)),
        };
        let seat = free_seat(&self.flights);
        let last = self.free.len() - 1;
        let hand = take_at(&mut self.free, last);
        let given = Assignment {
            rt: theirs,
            alloc,
            gate,
            seat,
            hand,
            piece,
        };
        match launch(rt, given) {
            Ok(flight) => put(&mut self.flights, flight),
            Err(done) => {
                self.gate.lower(rt, seat);
                put(&mut self.done, done);
            }
        }
        Ok(())
    }

    /// A hand goes with a step. A refusal hands the work back, and leaves the pool as it was.
    pub fn start_step<R>(
        &mut self,
        rt: &R,
        alloc: Global,
        work: Work,
    ) -> Result<(), (Work, AllocError)>
    where
        R: Threads + Wait + Clone + Send + Sync + Drop + 'static,
        K: Send + 'static,
        H: Send + 'static,
        E: Send + 'static,
        Q: Send + 'static,
        requires { 0 < length self.old.free }
        ensures ok { OnOk result (IsStarted (piece_of.Step work) self.old self.new) }
        ensures err { OnErr result (self.new ≡ self.old) }
        ensures back { IfErr result (λ refused. refused.0 ≡ work) }
    {
        match self.start_piece(rt, alloc, Piece::Step(work)) {
            Ok(()) => Ok(()),
            Err((refused, e)) => match refused {
                Piece::Step(work) => Err((work, e)),
                Piece::Query(_) => unreachable!(),
            },
        }
    }

    /// A hand goes with a query, whose thread answers it. A refusal hands the query back, and leaves the pool as it was.
    pub fn start_query<R>(&mut self, rt: &R, alloc: Global, query: Q) -> Result<(), (Q, AllocError)>
    where
        R: Threads + Wait + Clone + Send + Sync + Drop + 'static,
        K: Send + 'static,
        H: Send + 'static,
        E: Send + 'static,
        Q: Send + 'static,
        requires free { 0 < length self.old.free }
        requires can { Q.can_run query }
        ensures ok { OnOk result (IsStarted (piece_of.Query query) self.old self.new) }
        ensures err { OnErr result (self.new ≡ self.old) }
        ensures back { IfErr result (λ refused. refused.0 ≡ query) }
    {
        match self.start_piece(rt, alloc, Piece::Query(query)) {
            Ok(()) => Ok(()),
            Err((refused, e)) => match refused {
                Piece::Query(query) => Err((query, e)),
                Piece::Step(_) => unreachable!(),
            },
        }
    }

    /// Waits until a piece has ended, and gives its end; `None` exactly where nothing is in flight.
    pub fn wait_any<R: Threads + Wait>(&mut self, rt: &R) -> Option<PieceEnd<E>>
        ensures none { (result ≡ None) ↔ (self.old.in_flight ≡ []) }
        ensures same { result ≡ None → self.new ≡ self.old }
        ensures landed { IfSome result (λ end. IsLanded (HasAnswered (HasRun H.honest K.is_task K.text H.runs H.faults H.fails H.calls) Q.line_of Q.ends) end self.old self.new) }
    {
        if !self.done.is_empty() {
            let Finished { hand, end } = next_done(&mut self.done);
            put(&mut self.free, hand);
            return Some(end);
        }
        if self.flights.is_empty() {
            return None;
        }
        let Finished { hand, end } = next_landed(rt, &self.gate, &mut self.flights);
        put(&mut self.free, hand);
        Some(end)
    }
}
