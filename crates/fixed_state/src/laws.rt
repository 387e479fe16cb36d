// What turns leave of what is kept.

ghost use Rattle.std.specs.Prelude.{◌≡◌, ◌<◌, ◌++◌, ◌∷◌, ◌==◌, [], ℕ, List, find, length};
ghost use Rattle.fixed_cube.specs.Answers.{by_first};
ghost use Rattle.fixed_cube.specs.Cells.{Cell};
ghost use Rattle.fixed_cube.specs.Columns.{fact_columns, row_limit};
ghost use Rattle.job_machine.specs.declared.state.JobKind.TheVariants.{Build};
ghost use Rattle.plain_answer.specs.declared.ask.Ask.{Ask as Query};
ghost use Rattle.range_list.specs.Ranges.{Interval};
ghost use Rattle.run_history.specs.Commands.Command.{Ask, Load, Steer};
ghost use Rattle.run_history.specs.Cubes.{Rows};
ghost use Rattle.run_history.specs.Steps.{accepted, by_verdict, claimed, query_ended, query_taken, submitted};
ghost use Rattle.run_history.specs.Verdicts.{steer_refusal};
ghost use Rattle.run_history.specs.World.{World, job_of};
ghost use Rattle.run_history.specs.declared.command.Control.{Control};
ghost use Rattle.run_history.specs.declared.event.QueryOut.{QueryOut};
ghost use Rattle.run_state.specs.Answers.{products_steered};
ghost use Rattle.step_fields.specs.Fits.{FitsRows, IsDayRange};
ghost use Rattle.fixed_state.specs.Kept.{AreKept};

use outside::Honest;

/// What is kept of a world belongs to it after every turn but the end of a step: a command that changes nothing, a load that fits, a
/// BUILD of which nothing is kept yet, a command on a job, of which no product is kept where it is discarded, the one query, a claim,
/// and the taking and the end of a query.
pub fn kept_by_turns<H: Honest>()
    ensures noted { (w : World Query) (products : List (List (List ℕ))) (cells : List (List Cell)) → AreKept H.honest w products cells → (line : ℕ) → AreKept H.honest (record w { line = line }) products cells }
    ensures loaded { (w : World Query) (products : List (List (List ℕ))) (cells : List (List Cell)) → AreKept H.honest w products cells → (line table : ℕ) (rows : Rows) → table < length w.loaded → FitsRows fact_columns row_limit rows → AreKept H.honest (accepted 0 (record w { line = line }) (Load table rows)) products cells }
    ensures submitted { (w : World Query) (products : List (List (List ℕ))) (cells : List (List Cell)) → AreKept H.honest w products cells → (line : ℕ) (range : Interval) → IsDayRange range → AreKept H.honest (submitted (record w { line = line }) Build 3 range) (products ++ [] ∷ []) cells }
    ensures steered { (w : World Query) (products : List (List (List ℕ))) (cells : List (List Cell)) → AreKept H.honest w products cells → (line job : ℕ) (control : Control) → AreKept H.honest (by_verdict (steer_refusal control job (job_of w job)) 0 (record w { line = line }) (Steer control job)) (products_steered control (steer_refusal control job (job_of w job)) job products) cells }
    ensures asked { (w : World Query) (products : List (List (List ℕ))) (cells : List (List Cell)) → AreKept H.honest w products cells → (line session : ℕ) → AreKept H.honest (accepted 0 (record w { line = line }) (Ask session by_first)) products cells }
    ensures claimed { (w : World Query) (products : List (List (List ℕ))) (cells : List (List Cell)) → AreKept H.honest w products cells → (job attempt : ℕ) → AreKept H.honest (claimed w job attempt (job_of w job)) products cells }
    ensures taken { (w : World Query) (products : List (List (List ℕ))) (cells : List (List Cell)) → AreKept H.honest w products cells → (line : ℕ) → AreKept H.honest (query_taken w line (find (λ q. q.line == line) w.waiting)) products cells }
    ensures answered { (w : World Query) (products : List (List (List ℕ))) (cells : List (List Cell)) → AreKept H.honest w products cells → (line : ℕ) (out : QueryOut) → AreKept H.honest (query_ended w line out (find (λ q. q.waiting.line == line) w.asked)) products cells }
{}
