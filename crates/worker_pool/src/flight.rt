// A piece of work in its thread.

ghost use denote.Param.Send.{IsSync};
ghost use Rattle.std.specs.Prelude.{◌≡◌, IfErr, IfOk};
ghost use Rattle.worker_pool.specs.Answered.{CanRun, HasAnswered, HasRun};
ghost use Rattle.worker_pool.specs.Pools.{in_flight_of};

use crate::gate::Gate;
use crate::piece::{Piece, PieceEnd, QueryPiece, Work};
use outside::{Hand, HandFault, StepWork};
use std::alloc::Global;
use std::marker::{Model, PhantomData};
use std::snapshot::Snapshot;
use std::sync::{Arc, Wait};
use std::thread;
use std::thread::{Promise, PromisedHandle, Threads};

/// All that a thread is given for a piece: the runtime, the seat whose flag it puts up when it is done, the hand, and the piece.
#[derive(Drop)]
pub(crate) struct Assignment<R, H, Q> {
    pub(crate) rt: R,
    pub(crate) alloc: Global,
    pub(crate) gate: Arc<Gate>,
    pub(crate) seat: usize,
    pub(crate) hand: H,
    pub(crate) piece: Piece<Q>,
}

/// What a thread gives back: the hand, and the end of the piece.
#[derive(Drop)]
pub(crate) struct Finished<H, E> {
    pub(crate) hand: H,
    pub(crate) end: PieceEnd<E>,
}

// What a thread was given, for contracts alone.
#[derive(Drop)]
struct Given<K, H, Q> {
    hand: Snapshot<H>,
    piece: Snapshot<Piece<Q>>,
    of: PhantomData<K>,
}

impl<K: StepWork, H: Hand<K>, E, Q: QueryPiece<E>> Promise<Finished<H, E>> for Given<K, H, Q> {
    ghost kept_by = { λ given finished. HasAnswered (HasRun H.honest K.is_task K.text H.runs H.faults H.fails H.calls) Q.line_of Q.ends given.hand.value given.piece.value finished.end finished.hand };
}

impl<K, H, Q> Given<K, H, Q> {
    fn of(hand: &H, piece: &Piece<Q>) -> Given<K, H, Q>
        ensures hand { result.hand.value ≡ hand.now }
        ensures piece { result.piece.value ≡ piece.now }
    {
        Given {
            hand: Snapshot::of(hand),
            piece: Snapshot::of(piece),
            of: PhantomData,
        }
    }
}

/// A piece in a thread, with the seat whose flag it puts up. Contracts see the piece and its hand, as they were given to the thread.
#[derive(Drop)]
pub(crate) struct Flight<K, H, E, Q>
where
    K: StepWork,
    H: Hand<K> + Drop,
    E: Drop,
    Q: QueryPiece<E> + Drop,
{
    seat: usize,
    child: PromisedHandle<Finished<H, E>, Given<K, H, Q>>,
}

impl<K, H, E, Q> Model for Flight<K, H, E, Q>
where
    K: StepWork,
    H: Hand<K> + Drop,
    E: Drop,
    Q: QueryPiece<E> + Drop,
{
    ghost use Rattle.worker_pool.specs.Pools.{InFlight, in_flight_of};

    ghost Value = { InFlight H Q };

    ghost view = { λ flight. in_flight_of flight.child.promise.hand.value flight.child.promise.piece.value };
}

impl<K, H, E, Q> Flight<K, H, E, Q>
where
    K: StepWork,
    H: Hand<K> + Drop,
    E: Drop,
    Q: QueryPiece<E> + Drop,
{
    /// The seat whose flag it puts up.
    pub(crate) fn seat(&self) -> usize {
        self.seat
    }

    /// Waits for the thread, and gives what it gave.
    pub(crate) fn land<R: Threads>(self, rt: &R) -> Finished<H, E>
        ensures { HasAnswered (HasRun H.honest K.is_task K.text H.runs H.faults H.fails H.calls) Q.line_of Q.ends self.hand self.piece result.end result.hand }
    {
        let child = self.child;
        child.join(rt)
    }
}

/// A piece for which no thread could be had, and which is done. Contracts see the piece and its hand, as they were when it was started.
#[derive(Drop)]
pub(crate) struct Done<K, H, E, Q>
where
    K: StepWork,
    H: Hand<K> + Drop,
    E: Drop,
    Q: QueryPiece<E> + Drop,
{
    given: Given<K, H, Q>,
    finished: Finished<H, E>,
}

impl<K, H, E, Q> Model for Done<K, H, E, Q>
where
    K: StepWork,
    H: Hand<K> + Drop,
    E: Drop,
    Q: QueryPiece<E> + Drop,
{
    ghost use Rattle.worker_pool.specs.Answered.{HasAnswered, HasRun};
    ghost use Rattle.worker_pool.specs.Pools.{InFlight, in_flight_of};

    ghost Value = { InFlight H Q };

    ghost view = { λ done. in_flight_of done.given.hand.value done.given.piece.value };

    ghost invariant = { λ done. HasAnswered (HasRun H.honest K.is_task K.text H.runs H.faults H.fails H.calls) Q.line_of Q.ends done.given.hand.value done.given.piece.value done.finished.end done.finished.hand };
}

impl<K, H, E, Q> Done<K, H, E, Q>
where
    K: StepWork,
    H: Hand<K> + Drop,
    E: Drop,
    Q: QueryPiece<E> + Drop,
{
    fn new(given: Given<K, H, Q>, finished: Finished<H, E>) -> Done<K, H, E, Q>
        requires { HasAnswered (HasRun H.honest K.is_task K.text H.runs H.faults H.fails H.calls) Q.line_of Q.ends given.hand.value given.piece.value finished.end finished.hand }
        ensures { result ≡ in_flight_of given.hand.value given.piece.value }
    {
        Done { given, finished }
    }

    /// The hand, and the end of the piece.
    pub(crate) fn into_finished(self) -> Finished<H, E>
        ensures { HasAnswered (HasRun H.honest K.is_task K.text H.runs H.faults H.fails H.calls) Q.line_of Q.ends self.hand self.piece result.end result.hand }
    {
        self.finished
    }
}

// The hand's answer to a step.
fn run_step<K: StepWork, R: Threads + Wait + Sync, H: Hand<K>>(
    rt: &R,
    alloc: Global,
    hand: &mut H,
    work: &Work,
) -> Result<Vec<u8>, HandFault>
    ensures { HasRun H.honest K.is_task K.text H.runs H.faults H.fails H.calls hand.old work.now result hand.new }
{
    hand.run(rt, alloc, work.job, work.attempt, work.task.as_slice())
}

// Does a piece.
fn run_piece<K, R, H, E, Q>(rt: &R, alloc: Global, hand: H, piece: Piece<Q>) -> Finished<H, E>
where
    K: StepWork,
    R: Threads + Wait + Sync,
    H: Hand<K> + Drop,
    E: Drop,
    Q: QueryPiece<E> + Drop,
    requires { CanRun Q.can_run piece }
    ensures { HasAnswered (HasRun H.honest K.is_task K.text H.runs H.faults H.fails H.calls) Q.line_of Q.ends hand piece result.end result.hand }
{
    let mut hand = hand;
    match piece {
        Piece::Step(work) => {
            let result = run_step::<K, R, H>(rt, alloc, &mut hand, &work);
            let (job, attempt) = (work.job, work.attempt);
            Finished {
                hand,
                end: PieceEnd::Step {
                    job,
                    attempt,
                    result,
                },
            }
        }
        Piece::Query(query) => {
            let line = query.line();
            let end = query.run(alloc);
            Finished {
                hand,
                end: PieceEnd::Query { line, end },
            }
        }
    }
}

// Does a piece, and puts the flag of its seat up.
fn do_piece<K, R, H, E, Q>(given: Assignment<R, H, Q>) -> Finished<H, E>
where
    K: StepWork,
    R: Threads + Wait + Sync + Drop,
    H: Hand<K> + Drop,
    E: Drop,
    Q: QueryPiece<E> + Drop,
    requires { CanRun Q.can_run given.piece }
    ensures { HasAnswered (HasRun H.honest K.is_task K.text H.runs H.faults H.fails H.calls) Q.line_of Q.ends given.hand given.piece result.end result.hand }
{
    let Assignment {
        rt,
        alloc,
        gate,
        seat,
        hand,
        piece,
    } = given;
    let finished = run_piece::<K, R, H, E, Q>(&rt, alloc, hand, piece);
    gate.raise(&rt, seat);
    finished
}

/// Starts a thread that does a piece. Where none can be had the piece is done here, and its flag is up.
pub(crate) fn launch<K, R, H, E, Q>(
    rt: &R,
    given: Assignment<R, H, Q>,
) -> Result<Flight<K, H, E, Q>, Done<K, H, E, Q>>
where
    K: StepWork + Send + 'static,
    R: Threads + Wait + Send + Sync + Drop + 'static,
    H: Hand<K> + Drop + Send + 'static,
    E: Drop + Send + 'static,
    Q: QueryPiece<E> + Drop + Send + 'static,
    requires { CanRun Q.can_run given.piece }
    ensures away { IfOk result (λ flight. flight ≡ in_flight_of given.hand given.piece) }
    ensures here { IfErr result (λ done. done ≡ in_flight_of given.hand given.piece) }
{
    let seat = given.seat;
    let promise = Given::of(&given.hand, &given.piece);
    let here = Given::of(&given.hand, &given.piece);
    let does = move || -> Finished<H, E>
        requires { CanRun Q.can_run given.piece }
    { do_piece::<K, R, H, E, Q>(given) };
    match thread::spawn_with(rt, promise, does) {
        Ok(child) => Ok(Flight { seat, child }),
        Err(refused) => {
            let finished = (refused.value)();
            Err(Done::new(here, finished))
        }
    }
}
