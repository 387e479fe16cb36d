// A step of a job, from its claim to its end.

ghost use denote.Param.Send.{IsSync};
ghost use Rattle.std.specs.Prelude.{◌≡◌, ◌∷◌, [], ℕ, List, IfOk, IfSome, None, Ok, OnErr, OnOk, false};
ghost use Rattle.job_board.specs.BoardModel.{IsAdded, IsSame, now};
ghost use Rattle.run_history.specs.Commands.Turn.{StepEnds};
ghost use Rattle.run_history.specs.declared.event.Outcome.{Outcome};
ghost use Rattle.coordinator.specs.Claims.{IsClaimed, IsWorkOf};
ghost use Rattle.coordinator.specs.Coordinator.{IsCounted, IsIdle, IsWorked};
ghost use Rattle.coordinator.specs.HandAgreement.{HasRun, AgreesWithHand};

use job_board::{Board, SmallWork, Work};
use outside::Hand;
use std::alloc::{AllocError, Global};
use std::sync::Wait;
use std::thread::Threads;

// Claims the next step of the first job in the queue; `None` where the queue is empty.
fn claim_step<H: Hand<SmallWork> + Drop>(board: &mut Board<H>) -> Result<Option<Work>, AllocError>
    requires { IsIdle (now board.old) }
    ensures err { OnErr result (IsSame board.old board.new) }
    ensures none { IfOk result (λ found. found ≡ None → IsSame board.old board.new) }
    ensures empty { IfOk result (λ found. found ≡ None → (now board.old).queue ≡ []) }
    ensures some { IfOk result (λ found. IfSome found (λ work. IsClaimed H.honest board.old work board.new)) }
{
    board.reserve_turn()?;
    board.claim()
}

// Runs a claimed step, and records its end.
fn run_claimed<R: Threads + Wait + Sync, H: Hand<SmallWork> + Drop>(
    rt: &R,
    alloc: Global,
    board: &mut Board<H>,
    hand: &mut H,
    work: Work,
) -> Result<(), AllocError>
    requires sync { IsSync R.row }
    requires work { IsWorkOf H.honest (now board.old) work }
    ensures err { OnErr result (IsSame board.old board.new) }
    ensures same { OnErr result (hand.new ≡ hand.old) }
    ensures ended { OnOk result ((outcome : Outcome) × IsAdded board.old (StepEnds work.job work.attempt outcome) board.new × HasRun H.honest H.fails H.calls work hand.old hand.new outcome) }
    ensures counted { (base : List H) → IsCounted H.runs H.faults base (hand.old ∷ []) board.old → IsCounted H.runs H.faults base (hand.new ∷ []) board.new }
{
    board.reserve_turn()?;
    let answer = hand.run(rt, alloc, work.job, work.attempt, work.task.as_slice());
    let _ = board.end_step(work.job, work.attempt, answer);
    Ok(())
}

/// Claims the next step of the first job in the queue, runs it, and records its end; false where the queue is empty.
pub fn run_step<R: Threads + Wait + Sync, H: Hand<SmallWork> + Drop>(
    rt: &R,
    alloc: Global,
    board: &mut Board<H>,
    hand: &mut H,
) -> Result<bool, AllocError>
    requires sync { IsSync R.row }
    requires idle { IsIdle (now board.old) }
    ensures worked { IsWorked board.old board.new }
    ensures idle { OnOk result (IsIdle (now board.new)) }
    ensures same { result ≡ Ok false → IsSame board.old board.new }
    ensures empty { result ≡ Ok false → (now board.old).queue ≡ [] }
    ensures counted { (base : List H) → IsCounted H.runs H.faults base (hand.old ∷ []) board.old → IsCounted H.runs H.faults base (hand.new ∷ []) board.new }
    ensures agrees { (base : H) → AgreesWithHand H.honest H.fails H.calls base hand.old board.old → AgreesWithHand H.honest H.fails H.calls base hand.new board.new }
{
    match claim_step(board)? {
        Some(work) => {
            run_claimed(rt, alloc, board, hand, work)?;
            Ok(true)
        }
        None => Ok(false),
    }
}
