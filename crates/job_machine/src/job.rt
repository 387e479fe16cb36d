ghost use Rattle.std.specs.Prelude.{◌≡◌, ◌≢◌, ◌<◌, ℕ, true, false, OnErr};

use crate::state::{Ended, JobKind, JobRefusal, JobState};
use std::marker::Model;

/// One job of the board.
#[derive(Clone, Copy, Debug, PartialEq, Eq)]
pub struct Job {
    /// The job's number on its board.
    pub id: u32,
    /// What the job does to the segments of its range.
    pub kind: JobKind,
    /// How many steps the job has.
    pub steps: u32,
    /// How many of them are done.
    pub done: u32,
    /// How often the job was claimed. The last claim is its attempt.
    pub attempt: u32,
    /// Whether the end of the last claim is awaited: no longer after that end, a pause or a discard.
    pub in_flight: bool,
    /// Where the job stands.
    pub state: JobState,
}

impl Model for Job {
    ghost use Rattle.job_machine.specs.Job.{JobRecord, IsJob};

    ghost Value = { JobRecord };

    ghost use Rattle.job_machine.specs.Fields.{record_of};

    ghost view = { record_of };

    ghost invariant = { λ job. IsJob (record_of job) };

    ghost inverse = { λ r. record { id = r.id; kind = r.kind; steps = r.steps; done = r.done; attempt = r.attempt; in_flight = r.in_flight; state = r.state } };
}

impl Job {
    ghost use Rattle.job_machine.specs.Job.{Act, next, new_job, is_claimable, ended_ok, ended_failed, after_end, attempt_in_flight, answer_to, is_current, refusal_in};

    /// A job as it is submitted: PENDING, with no step done and no claim.
    pub fn new(id: u32, kind: JobKind, steps: u32) -> Job
        requires { 0 < steps }
        ensures { result ≡ new_job id kind steps }
    {
        Job {
            id,
            kind,
            steps,
            done: 0,
            attempt: 0,
            in_flight: false,
            state: JobState::Pending,
        }
    }

    /// Whether the job waits for a claim.
    pub fn claimable(&self) -> bool
        ensures { result ≡ is_claimable self.now }
    {
        match self.state {
            JobState::Pending => true,
            JobState::Running => !self.in_flight,
            JobState::Error => false,
            JobState::Stopped => false,
            JobState::Discarded => false,
            JobState::Finished => false,
        }
    }

    /// Gives the job's next step to a hand, under a new attempt.
    pub fn claim(&mut self)
        requires claimable { is_claimable self.old ≡ true }
        requires attempt { self.old.attempt < u32.MAX }
        ensures { self.new ≡ next Act.Claim self.old }
    {
        self.state = JobState::Running;
        self.in_flight = true;
        self.attempt += 1;
    }

    /// The step of this attempt ended well.
    pub fn step_ok(&mut self, attempt: u32) -> Ended
        ensures ended { result ≡ ended_ok self.old attempt }
        ensures job { self.new ≡ after_end (ended_ok self.old attempt) self.old }
        ensures stale { result ≡ Ended.Stale → self.new ≡ self.old }
    {
        if !self.is_current(attempt) {
            return Ended::Stale;
        }
        self.in_flight = false;
        self.done += 1;
        if self.done == self.steps {
            self.state = JobState::Finished;
            Ended::Finished
        } else {
            Ended::Advanced
        }
    }

    /// The step of this attempt failed.
    pub fn step_failed(&mut self, attempt: u32) -> Ended
        ensures ended { result ≡ ended_failed self.old attempt }
        ensures job { self.new ≡ after_end (ended_failed self.old attempt) self.old }
        ensures stale { result ≡ Ended.Stale → self.new ≡ self.old }
    {
        if !self.is_current(attempt) {
            return Ended::Stale;
        }
        self.halt(JobState::Error);
        Ended::Failed
    }

    /// Stops the job. It answers the attempt that was in flight, None exactly where none was; the end of that attempt will be
    /// stale.
    pub fn pause(&mut self) -> Result<Option<u32>, JobRefusal>
        ensures answer { result ≡ answer_to Act.Pause (attempt_in_flight self.old) self.old }
        ensures job { self.new ≡ next Act.Pause self.old }
        ensures refused { OnErr result (self.new ≡ self.old) }
    {
        match self.state {
            JobState::Pending => Ok(self.halt(JobState::Stopped)),
            JobState::Running => Ok(self.halt(JobState::Stopped)),
            JobState::Error => Err(self.refusal()),
            JobState::Stopped => Err(self.refusal()),
            JobState::Discarded => Err(self.refusal()),
            JobState::Finished => Err(self.refusal()),
        }
    }

    /// Lets a job that is in ERROR or STOPPED go on after its steps done.
    pub fn resume(&mut self) -> Result<(), JobRefusal>
        ensures answer { result ≡ answer_to Act.Resume tt self.old }
        ensures job { self.new ≡ next Act.Resume self.old }
        ensures refused { OnErr result (self.new ≡ self.old) }
    {
        match self.state {
            JobState::Error => {}
            JobState::Stopped => {}
            JobState::Pending => return Err(self.refusal()),
            JobState::Running => return Err(self.refusal()),
            JobState::Discarded => return Err(self.refusal()),
            JobState::Finished => return Err(self.refusal()),
        }
        self.state = JobState::Pending;
        Ok(())
    }

    /// Gives the job up for good. It answers the attempt that was in flight, None exactly where none was.
    pub fn discard(&mut self) -> Result<Option<u32>, JobRefusal>
        ensures answer { result ≡ answer_to Act.Discard (attempt_in_flight self.old) self.old }
        ensures job { self.new ≡ next Act.Discard self.old }
        ensures refused { OnErr result (self.new ≡ self.old) }
    {
        match self.state {
            JobState::Pending => Ok(self.halt(JobState::Discarded)),
            JobState::Running => Ok(self.halt(JobState::Discarded)),
            JobState::Error => Ok(self.halt(JobState::Discarded)),
            JobState::Stopped => Ok(self.halt(JobState::Discarded)),
            JobState::Discarded => Err(JobRefusal::JobEnded(self.state)),
            JobState::Finished => Err(JobRefusal::JobEnded(self.state)),
        }
    }

    // The end of this attempt counts.
    fn is_current(&self, attempt: u32) -> bool
        ensures { result ≡ is_current self.now attempt }
    {
        match self.state {
            JobState::Running => self.in_flight && self.attempt == attempt,
            JobState::Pending => false,
            JobState::Error => false,
            JobState::Stopped => false,
            JobState::Discarded => false,
            JobState::Finished => false,
        }
    }

    // Puts the job out of flight, in a state where no step runs. It answers the attempt that was in flight.
    fn halt(&mut self, state: JobState) -> Option<u32>
        requires unfinished { self.old.state ≢ JobState.Finished }
        requires state { state ≢ JobState.Finished }
        ensures attempt { result ≡ attempt_in_flight self.old }
        ensures job { self.new ≡ record self.old { state = state; in_flight = false } }
    {
        let attempt = if self.in_flight {
            Some(self.attempt)
        } else {
            None
        };
        self.state = state;
        self.in_flight = false;
        attempt
    }

    // How a command that the table has no row for is refused.
    fn refusal(&self) -> JobRefusal
        ensures { result ≡ refusal_in self.now.state }
    {
        match self.state {
            JobState::Discarded => JobRefusal::JobEnded(self.state),
            JobState::Finished => JobRefusal::JobEnded(self.state),
            JobState::Pending => JobRefusal::WrongState(self.state),
            JobState::Running => JobRefusal::WrongState(self.state),
            JobState::Error => JobRefusal::WrongState(self.state),
            JobState::Stopped => JobRefusal::WrongState(self.state),
        }
    }
}
