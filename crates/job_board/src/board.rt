// The board.

ghost use Rattle.std.specs.Prelude.{◌≡◌, ◌≢◌, ◌≤◌, ◌<◌, ◌+◌, ◌==◌, ◌&&◌, ◌⊎◌, ◌↔◌, ◌++◌, ◌∷◌, ℕ, [], true, false, None, Some, IfErr, IfOk, IfSome, IsErrOf, OnErr, OnOk, find, length, map, option_map, slice_get};
ghost use Rattle.std.specs.Arc.{arc_value};
ghost use Rattle.std.specs.List.{list_any};
ghost use Rattle.fixed_cube.specs.Columns.{fact_columns, row_limit};
ghost use Rattle.fixed_cube.specs.Cube.{fixed};
ghost use Rattle.fixed_cube.specs.Tasks.{IsTask};
ghost use Rattle.fixed_cube.specs.Answers.{by_first};
ghost use Rattle.fixed_state.specs.Ends.{IsProductOf, ended_at, kept_of, products_after};
ghost use Rattle.fixed_state.specs.Ready.{AreCellsOf};
ghost use Rattle.fixed_state.specs.States.{rows_seen};
ghost use Rattle.job_board.specs.BoardModel.{IfRefused, IsAdded, IsRecordedAs, IsSame, counts, ended_of, next_query, now, task_of, turns};
ghost use Rattle.job_machine.specs.Job.{JobRecord, is_current, is_last_step};
ghost use Rattle.job_machine.specs.declared.state.JobKind.TheVariants.{Build};
ghost use Rattle.run_history.specs.Commands.{event_of};
ghost use Rattle.run_history.specs.Commands.Command.{Ask, Load, Note, Steer, Submit};
ghost use Rattle.run_history.specs.Commands.Turn.{Claims, QueryEnds, QueryTakes, StepEnds, Takes};
ghost use Rattle.run_history.specs.Histories.{AreAtRest, HasFreshAnswers, IsFresh, IsInFlight, IsLawful, IsLegal, IsNextAttempt, IsNextOfSession, MayNote, claim_count, is_settled};
ghost use Rattle.run_history.specs.Invariants.{IsSound};
ghost use Rattle.run_history.specs.Steps.{end_by};
ghost use Rattle.run_history.specs.Verdicts.{most_segments, verdict};
ghost use Rattle.run_history.specs.World.{Submitted, Waiting, Asked, busy, job_of, next_task, number};
ghost use Rattle.run_history.specs.declared.event.Outcome.{Outcome};
ghost use Rattle.run_history.specs.declared.event.Outcome.TheVariants.{Damaged};
ghost use Rattle.run_state.specs.Answers.{products_steered, refusal_of, steer_answer};
ghost use Rattle.run_state.specs.States.{answered_in, submitted_of};
ghost use Rattle.step_fields.specs.Fits.{FitsRows};
ghost use Rattle.job_board.specs.declared.answers.BoardRefusal.TheVariants.{Memory};
ghost use Rattle.plain_answer.specs.declared.ask.Ask.{Ask as Query};

use crate::BoardJob;
use crate::answers::{BoardRefusal, QueryWork, StepEnd, Work};
use crate::turn::{BoardTurn, Log, record_turn, reserve_log};
use cube_val::{NameText, Table};
use fixed_cube::by_first;
use fixed_state::{FixedReady, FixedState, SharedTable, end_step, ready_cells, task_of_job};
use job_machine::{Ended, Job, JobKind};
use outside::{HandFault, Honest};
use range_list::Range;
use run_history::{Control, Event, Noted, Outcome, QueryOut, Refused};
use run_state::{Claim, Controlled, QueryInFlight, ReadyHandle, Session};
use std::alloc::{AllocError, Global};
use std::marker::{Model, PhantomData};
use std::sync::Arc;

/// The steps of a job.
const STEPS: u32 = 3;

/// The board of a run, whose hands are of the type `H`.
#[derive(Drop)]
pub struct Board<H: Honest> {
    alloc: Global,
    workers: u32,
    room: usize,
    names: Vec<NameText>,
    state: FixedState,
    log: Log,
    of: PhantomData<H>,
}

impl<H: Honest> Model for Board<H> {
    ghost use Rattle.job_board.specs.BoardModel.{BoardModel};
    ghost use Rattle.job_board.specs.Boards.{IsBoard};
    ghost use Rattle.run_state.specs.Orders.{products_of};

    ghost Value = { BoardModel };

    ghost view = { λ b. record { workers = b.workers; log = b.log.turns.items; room = b.room; products = products_of b.state } };

    ghost invariant = { λ b. IsBoard H.honest b.workers b.room b.names.items b.state b.log };
}

// The names of the tables.
fn table_names(alloc: Global) -> Result<Vec<NameText>, AllocError>
    ensures { IfOk result (λ names. names.items ≡ fixed.tables) }
{
    let mut names = Vec::new(alloc);
    names.push(NameText::new(alloc, b"F")?)?;
    Ok(names)
}

// The query in flight of a line.
fn query_of(asked: &[QueryInFlight], line: u32) -> Option<QueryInFlight>
    ensures { result ≡ find (λ q. q.line == line) asked.now }
{
    asked.iter().copied().find(|query| query.line == line)
}

// Whether this attempt of the job is claimed.
fn has_claim(steps: &[Claim], job: u32, attempt: u32) -> bool
    ensures { result ≡ list_any (λ claim. (claim.job == job) && (claim.attempt == attempt)) steps.now }
{
    steps
        .iter()
        .any(|claim| claim.job == job && claim.attempt == attempt)
}

// The version of a session's last answer; 0 before it.
fn answered_of(sessions: &[Session], session: u32) -> u32
    ensures { result ≡ answered_in sessions.now session }
{
    for listed in sessions {
        if listed.session == session {
            return listed.answered;
        }
    }
    0
}

// Whether a version is no older than those at the query's command and taking and of its session's last answer, and no newer than the last.
fn is_lawful(query: QueryInFlight, answered: u32, last: u32, version: u32) -> bool
    ensures { (result ≡ true) ↔ ((query.at_command ≤ version) × (query.at_take ≤ version) × (answered ≤ version) × (version ≤ last)) }
{
    query.at_command <= version
        && query.at_take <= version
        && answered <= version
        && version <= last
}

// What the end of an attempt is to its job: whether it counts, whether it is that of the last step, and what is recorded of it.
fn ended_as(counts: bool, last: bool, outcome: Outcome) -> Ended
    ensures stale { counts ≡ false → result ≡ Ended.Stale }
    ensures job { (job : JobRecord) (attempt : ℕ) → is_current job attempt ≡ counts → is_last_step job ≡ last → result ≡ end_by outcome job attempt }
{
    if !counts {
        return Ended::Stale;
    }
    match outcome {
        Outcome::Done => {
            if last {
                Ended::Finished
            } else {
                Ended::Advanced
            }
        }
        Outcome::NotStarted
        | Outcome::Ended(_)
        | Outcome::Killed
        | Outcome::NoFile
        | Outcome::Damaged
        | Outcome::Memory => Ended::Failed,
    }
}

impl<H: Honest> Board<H> {
    /// The board before the first turn.
    pub fn new(alloc: Global, workers: u32) -> Result<Board<H>, AllocError>
        requires { (1 ≤ workers) × (workers ≤ 8) }
        ensures { IfOk result (λ board. board ≡ record { workers = workers; log = []; room = 0; products = [] }) }
    {
        let names = table_names(alloc)?;
        let state = run_state::new_state(alloc, workers, 1, FixedReady::new(alloc))?;
        Ok(Board {
            alloc,
            workers,
            room: 0,
            names,
            state,
            log: Log {
                turns: Vec::new(alloc),
                history: Vec::new(alloc),
            },
            of: PhantomData,
        })
    }

    /// Makes room for one turn.
    pub fn reserve_turn(&mut self) -> Result<(), AllocError>
        ensures same { IsSame self.old self.new }
        ensures room { OnOk result (0 < self.new.room) }
    {
        self.room = 0;
        match reserve_log(&mut self.log) {
            Ok(()) => {
                self.room = 1;
                Ok(())
            }
            Err(e) => Err(e),
        }
    }

    /// Whether what a command waits for is there.
    pub fn may_take(&self, noted: &Noted) -> bool
        ensures { (result ≡ true) ↔ MayNote (now self.now) noted.now }
    {
        run_state::may_note(&self.state, noted)
    }

    /// The table of this place was loaded.
    pub fn load(&mut self, line: u32, table: usize, rows: Arc<Table>) -> Result<(), AllocError>
        requires room { 0 < self.old.room }
        requires above { (now self.old).line < line }
        requires there { table < length fixed.tables }
        requires fits { FitsRows fact_columns row_limit (arc_value rows) }
        ensures added { OnOk result (IsAdded self.old (Takes line (Load table (arc_value rows))) self.new) }
        ensures products { self.new.products ≡ self.old.products }
        ensures err { OnErr result (self.new ≡ self.old) }
    {
        let logged = match rows.clone() {
            Ok(rows) => SharedTable::of(rows),
            Err(e) => return Err(e),
        };
        run_state::load(&mut self.state, line, table, SharedTable::of(rows));
        record_turn(&mut self.log, BoardTurn::Loads(line, table, logged));
        self.room = 0;
        Ok(())
    }

    /// A BUILD of a range was submitted: the number of its job, or why it is refused.
    pub fn submit(&mut self, line: u32, range: Range) -> Result<u32, BoardRefusal>
        requires room { 0 < self.old.room }
        requires above { (now self.old).line < line }
        ensures number { IfOk result (λ number. number ≡ length (now self.old).jobs + 1) }
        ensures accepted { OnOk result (verdict fixed (now self.old) (Submit Build range) ≡ None) }
        ensures added { OnOk result (IsAdded self.old (Takes line (Submit Build range)) self.new) }
        ensures products { OnOk result (self.new.products ≡ self.old.products ++ [] ∷ []) }
        ensures refused { IfErr result (λ refusal. IfRefused refusal (λ refused. verdict fixed (now self.old) (Submit Build range) ≡ Some refused)) }
        ensures refused_added { IfErr result (λ refusal. IfRefused refusal (λ refused. IsAdded self.old (Takes line (Submit Build range)) self.new)) }
        ensures refused_products { OnErr result (self.new.products ≡ self.old.products) }
        ensures memory { IsErrOf result Memory → self.new ≡ self.old }
    {
        let _last_day = range.end().number();
        match run_state::build_refusal(&self.state, &self.names, &range) {
            Ok(None) => {}
            Ok(Some(refused)) => {
                run_state::set_line(&mut self.state, line);
                record_turn(&mut self.log, BoardTurn::Builds(line, range));
                self.room = 0;
                return Err(BoardRefusal::Refused(refused));
            }
            Err(_) => return Err(BoardRefusal::Memory),
        }
        let number = match run_state::submit(
            &mut self.state,
            self.alloc,
            line,
            JobKind::Build,
            STEPS,
            range,
        ) {
            Ok(number) => number,
            Err(_) => return Err(BoardRefusal::Memory),
        };
        record_turn(&mut self.log, BoardTurn::Builds(line, range));
        self.room = 0;
        Ok(number)
    }

    /// Pauses, resumes or discards a job, or refuses to. Of a job that is discarded no product is kept. It takes no memory.
    pub fn control(&mut self, line: u32, control: Control, job: u32) -> Result<Controlled, Refused>
        requires room { 0 < self.old.room }
        requires above { (now self.old).line < line }
        ensures answer { result ≡ steer_answer control job (job_of (now self.old) job) }
        ensures added { IsAdded self.old (Takes line (Steer control job)) self.new }
        ensures products { self.new.products ≡ products_steered control (refusal_of result) job self.old.products }
    {
        let answer = run_state::control_job(&mut self.state, line, control, job);
        record_turn(&mut self.log, BoardTurn::Steers(line, control, job));
        self.room = 0;
        answer
    }

    /// A command that changes nothing. It takes no memory.
    pub fn note(&mut self, line: u32, noted: Noted)
        requires room { 0 < self.old.room }
        requires above { (now self.old).line < line }
        requires may { MayNote (now self.old) noted }
        ensures added { IsAdded self.old (Takes line (Note noted)) self.new }
        ensures products { self.new.products ≡ self.old.products }
    {
        run_state::set_line(&mut self.state, line);
        record_turn(&mut self.log, BoardTurn::Notes(line, noted));
        self.room = 0;
    }

    /// The query of a session was accepted.
    pub fn ask(&mut self, line: u32, session: u32) -> Result<(), AllocError>
        requires room { 0 < self.old.room }
        requires above { (now self.old).line < line }
        ensures added { OnOk result (IsAdded self.old (Takes line (Ask session by_first)) self.new) }
        ensures products { self.new.products ≡ self.old.products }
        ensures err { OnErr result (self.new ≡ self.old) }
    {
        let query = match by_first(self.alloc) {
            Ok(query) => query,
            Err(e) => return Err(e),
        };
        match run_state::ask(&mut self.state, line, session, query) {
            Ok(()) => {}
            Err(e) => return Err(e),
        }
        record_turn(&mut self.log, BoardTurn::Asks(line, session));
        self.room = 0;
        Ok(())
    }

    /// Whether a piece of work more may be in flight.
    pub fn has_worker(&self) -> bool
        ensures { (result ≡ true) ↔ (busy (now self.now) < (now self.now).workers) }
    {
        self.state.steps.len() + self.state.asked.len() < self.state.workers as usize
    }

    /// Claims the next step of the first job in the queue; `None` exactly where the queue is empty. Whatever the hands gave, what is
    /// claimed is a task.
    pub fn claim(&mut self) -> Result<Option<Work>, AllocError>
        requires room { 0 < self.old.room }
        requires worker { busy (now self.old) < (now self.old).workers }
        ensures err { OnErr result (self.new ≡ self.old) }
        ensures none { IfOk result (λ found. found ≡ None → self.new ≡ self.old) }
        ensures first { IfOk result (λ found. option_map (λ work. work.job) found ≡ slice_get (now self.old).queue 0) }
        ensures added { IfOk result (λ found. IfSome found (λ work. IsAdded self.old (Claims work.job work.attempt) self.new)) }
        ensures attempt { IfOk result (λ found. IfSome found (λ work. IsNextAttempt (job_of (now self.old) work.job) work.attempt)) }
        ensures task { IfOk result (λ found. IfSome found (λ work. (s : Submitted) → job_of (now self.old) work.job ≡ Some s → work.task.items ≡ task_of (now self.old) s (kept_of self.old.products work.job))) }
        ensures honest_task { IfOk result (λ found. IfSome found (λ work. (s : Submitted) → job_of (now self.old) work.job ≡ Some s → H.honest → work.task.items ≡ next_task fixed (now self.old) s)) }
        ensures is_task { IfOk result (λ found. IfSome found (λ work. IsTask work.task.items)) }
        ensures products { self.new.products ≡ self.old.products }
    {
        let Some(job) = self.state.queue.front() else {
            return Ok(None);
        };
        let task = match task_of_job(self.alloc, &self.state, job) {
            Ok(task) => task,
            Err(e) => return Err(e),
        };
        let attempt = match run_state::claim(&mut self.state, self.alloc, job) {
            Ok(attempt) => attempt,
            Err(e) => return Err(e),
        };
        record_turn(&mut self.log, BoardTurn::Claims(job, attempt));
        self.room = 0;
        Ok(Some(Work { job, attempt, task }))
    }

    /// The end of an attempt that was claimed, and what is recorded of it. An end that doesn't count is recorded as what the hand gave, and
    /// takes no memory. One that counts is recorded as the hand's fault, or as Damaged exactly where the bytes are no product of the task
    /// of the job's next step, or as Done; Memory may stand in place of Damaged and Done.
    pub fn end_step(
        &mut self,
        job: u32,
        attempt: u32,
        answer: Result<Vec<u8>, HandFault>,
    ) -> Outcome
        requires room { 0 < self.old.room }
        requires claimed { 0 < claim_count job attempt (now self.old).steps }
        requires product { H.honest → IsProductOf (now self.old) (job_of (now self.old) job) attempt answer }
        ensures added { IsAdded self.old (StepEnds job attempt result) self.new }
        ensures outcome { IsRecordedAs (now self.old) (job_of (now self.old) job) (kept_of self.old.products job) attempt answer result }
        ensures honest { H.honest → result ≢ Damaged }
        ensures products { self.new.products ≡ products_after (ended_of (job_of (now self.old) job) attempt result) job answer self.old.products }
    {
        let outcome = end_step::<H>(&mut self.state, self.alloc, job, attempt, answer);
        record_turn(&mut self.log, BoardTurn::StepEnds(job, attempt, outcome));
        self.room = 0;
        outcome
    }

    /// As `end_step`, and what the end was to the job: Stale exactly where it doesn't count.
    pub fn end_attempt(
        &mut self,
        job: u32,
        attempt: u32,
        answer: Result<Vec<u8>, HandFault>,
    ) -> StepEnd
        requires room { 0 < self.old.room }
        requires claimed { 0 < claim_count job attempt (now self.old).steps }
        requires product { H.honest → IsProductOf (now self.old) (job_of (now self.old) job) attempt answer }
        ensures added { IsAdded self.old (StepEnds job attempt result.outcome) self.new }
        ensures outcome { IsRecordedAs (now self.old) (job_of (now self.old) job) (kept_of self.old.products job) attempt answer result.outcome }
        ensures ended { result.ended ≡ ended_of (job_of (now self.old) job) attempt result.outcome }
        ensures honest { H.honest → result.outcome ≢ Damaged }
        ensures products { self.new.products ≡ products_after (ended_of (job_of (now self.old) job) attempt result.outcome) job answer self.old.products }
    {
        let counts = run_state::is_current(&self.state.jobs, job, attempt);
        let last = run_state::is_last_step(&self.state.jobs, job);
        let outcome = self.end_step(job, attempt, answer);
        StepEnd {
            outcome,
            ended: ended_as(counts, last, outcome),
        }
    }

    /// Takes the first waiting query of whose session none is in flight; `None` exactly where there is no such query.
    pub fn take_query(&mut self) -> Result<Option<QueryWork>, AllocError>
        requires room { 0 < self.old.room }
        requires worker { busy (now self.old) < (now self.old).workers }
        ensures err { OnErr result (self.new ≡ self.old) }
        ensures none { IfOk result (λ found. found ≡ None → self.new ≡ self.old) }
        ensures first { IfOk result (λ found. option_map (λ work. work.line) found ≡ option_map (λ q. q.line) (next_query (now self.old))) }
        ensures added { IfOk result (λ found. IfSome found (λ work. IsAdded self.old (QueryTakes work.line) self.new)) }
        ensures next { IfOk result (λ found. IfSome found (λ work. IsNextOfSession (now self.old) (find (λ q. q.line == work.line) (now self.old).waiting))) }
        ensures session { IfOk result (λ found. IfSome found (λ work. (q : Waiting Query) → find (λ q. q.line == work.line) (now self.old).waiting ≡ Some q → work.session ≡ q.session)) }
        ensures query { IfOk result (λ found. IfSome found (λ work. (q : Waiting Query) → find (λ q. q.line == work.line) (now self.old).waiting ≡ Some q → q.query ≡ by_first)) }
        ensures version { IfOk result (λ found. IfSome found (λ work. work.version ≡ number (now self.old))) }
        ensures cells { IfOk result (λ found. IfSome found (λ work. H.honest ⊎ ((now self.old).ready ≡ []) → AreCellsOf (now self.old).ready work.cells)) }
        ensures products { self.new.products ≡ self.old.products }
    {
        let Some(place) = run_state::next_query(&self.state) else {
            return Ok(None);
        };
        let cells = match ready_cells(self.alloc, &self.state.ready) {
            Ok(cells) => cells,
            Err(e) => return Err(e),
        };
        let version = self.state.ready.version();
        let query = match run_state::take_query(&mut self.state, place) {
            Ok(query) => query,
            Err(e) => return Err(e),
        };
        record_turn(&mut self.log, BoardTurn::QueryTakes(query.line));
        self.room = 0;
        Ok(Some(QueryWork {
            line: query.line,
            session: query.session,
            version,
            cells,
        }))
    }

    /// The query of this line has its end. It takes no memory.
    pub fn end_query(&mut self, line: u32, out: QueryOut)
        requires room { 0 < self.old.room }
        requires in_flight { IsInFlight (now self.old) line }
        requires fresh { IsFresh (now self.old) (QueryEnds line out) }
        ensures added { IsAdded self.old (QueryEnds line out) self.new }
        ensures products { self.new.products ≡ self.old.products }
    {
        run_state::end_query(&mut self.state, line, out);
        record_turn(&mut self.log, BoardTurn::QueryEnds(line, out));
        self.room = 0;
    }

    /// Whether this attempt of the job was claimed and has no end yet.
    pub fn is_claimed(&self, job: u32, attempt: u32) -> bool
        ensures { (result ≡ true) ↔ (0 < claim_count job attempt (now self.now).steps) }
    {
        has_claim(&self.state.steps, job, attempt)
    }

    /// Whether the query of this line may end so: it is in flight, and the version of its answer is lawful.
    pub fn may_end(&self, line: u32, out: &QueryOut) -> bool
        ensures { (result ≡ true) ↔ (IsInFlight (now self.now) line × IsFresh (now self.now) (QueryEnds line out.now)) }
    {
        let Some(query) = query_of(&self.state.asked, line) else {
            return false;
        };
        match out {
            QueryOut::Memory => true,
            QueryOut::Answered(version) => {
                let answered = answered_of(&self.state.sessions, query.session);
                is_lawful(query, answered, self.state.ready.version(), *version)
            }
        }
    }

    /// Whether the queue is empty, nothing is in flight, and each accepted query has its end.
    pub fn settled(&self) -> bool
        ensures { result ≡ is_settled (now self.now) }
    {
        run_state::is_settled(&self.state)
    }

    /// The events so far. They are a legal history, and its answers are fresh.
    pub fn history(&self) -> &[Event]
        ensures history { result.now ≡ map event_of (turns self.now) }
        ensures legal { IsLegal fixed self.now.workers [] (turns self.now) }
        ensures fresh { HasFreshAnswers fixed self.now.workers [] (turns self.now) }
        ensures sound { IsSound fixed (now self.now) }
    {
        &self.log.history
    }

    /// The events so far, of a board that is done with.
    pub fn into_history(self) -> Vec<Event>
        ensures history { result.items ≡ map event_of (turns self) }
        ensures legal { IsLegal fixed self.workers [] (turns self) }
        ensures fresh { HasFreshAnswers fixed self.workers [] (turns self) }
    {
        let log = self.log;
        log.history
    }

    /// The jobs by number, the first of which is job 1.
    pub fn jobs(&self) -> &[BoardJob]
        ensures jobs { map (submitted_of rows_seen) result.now ≡ (now self.now).jobs }
        ensures few { length result.now ≤ 4_000_000_000 }

        // A job that is PENDING or RUNNING waits in the queue, or its last claim is in flight.
        ensures rest { (now self.now).queue ≡ [] → (now self.now).steps ≡ [] → AreAtRest (now self.now).jobs }
    {
        &self.state.jobs
    }

    /// The job of a number; `None` exactly where there is none.
    pub fn job(&self, id: u32) -> Option<&Job>
        ensures none { result ≡ None → job_of (now self.now) id ≡ None }
        ensures job { IfSome result (λ job. option_map (λ s. s.job) (job_of (now self.now) id) ≡ Some job.now) }
    {
        let Some(place) = run_state::place_of_job(&self.state.jobs, id) else {
            return None;
        };
        let entry = &self.state.jobs[place];
        Some(&entry.job)
    }

    /// The ready set.
    pub fn ready(&self) -> &FixedReady
        ensures ready { result.now.set.segments ≡ (now self.now).ready }
        ensures version { result.now.set.version ≡ number (now self.now) }
        ensures few { length result.now.set.segments ≤ most_segments }
    {
        &self.state.ready
    }

    /// How many queries were accepted.
    pub fn accepted(&self) -> u32
        ensures { result ≡ (now self.now).accepted }
    {
        self.state.accepted
    }

    /// For how many turns there is room.
    pub fn room(&self) -> usize
        ensures { result ≡ self.now.room }
    {
        self.room
    }

    /// The line of the last command; 0 before it.
    pub fn line(&self) -> u32
        ensures { result ≡ (now self.now).line }
    {
        self.state.line
    }
}
