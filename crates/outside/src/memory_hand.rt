// A hand in memory.

ghost use denote.Param.Send.{IsSync};
ghost use Rattle.std.specs.Prelude.{◌≡◌, ◌≢◌, ◌≤◌, ◌<◌, ◌^◌, ◌⊎◌, ◌++◌, [], ◌∷◌, ⊤, Some, None, Err, IfErr, IfOk, IfSome, IsErrOf, OnErr, OnOk, map, option_map, take};
ghost use Rattle.outside.specs.Counts.{Rose, raised};
ghost use Rattle.outside.specs.Fates.{fail_of, fate_for};
ghost use Rattle.outside.specs.Hands.{AnswersFails, call_of};
ghost use Rattle.outside.specs.MemoryHand.{MeetsFate, after_kill, call_held, faults_after};

use crate::fate::{Fate, Fated};
use crate::hand::{Hand, HandFault, Honest};
use crate::product::{count_after, product_of};
use crate::work::StepWork;
use std::alloc::{AllocError, Global};
use std::marker::{Model, PhantomData};
use std::sync::Wait;
use std::thread::Threads;

// A call of run: an attempt of a job, and the bytes of its task.
#[derive(Drop)]
struct Call {
    job: u32,
    attempt: u32,
    task: Vec<u8>,
}

/// A hand in memory, which does the work itself and is honest. The first fate of an attempt is what it meets.
#[derive(Drop)]
pub struct MemoryHand<K> {
    fates: Vec<Fated>,
    calls: Vec<Call>,
    leftovers: Vec<Vec<u8>>,
    runs: u64,
    faults: u64,
    of: PhantomData<K>,
}

impl<K> Model for MemoryHand<K> {
    ghost use Rattle.std.specs.Prelude.{◌<◌, ◌^◌, map};
    ghost use Rattle.outside.specs.MemoryHand.{HandState, call_held};

    ghost Value = { HandState };

    ghost view = { λ h. record { fates = h.fates.items; calls = map call_held h.calls.items; leftovers = map (λ bytes. bytes.items) h.leftovers.items; runs = h.runs; faults = h.faults } };

    ghost invariant = { λ h. (h.runs < 2 ^ 64) × (h.faults < 2 ^ 64) };
}

// The first fate of the attempt.
fn first_fate(fates: &[Fated], job: u32, attempt: u32) -> Option<Fate>
    ensures { result ≡ fate_for job attempt fates.now }
{
    fates
        .iter()
        .find(|fated| fated.job == job && fated.attempt == attempt)
        .map(|fated| fated.fate)
}

// The call, with its own copy of the task.
fn call_with(alloc: Global, job: u32, attempt: u32, task: &[u8]) -> Result<Call, AllocError>
    ensures { IfOk result (λ call. call_held call ≡ call_of job attempt task.now) }
{
    Ok(Call {
        job,
        attempt,
        task: Vec::from_slice(alloc, task)?,
    })
}

// What the fate leaves of the product. Of a killed attempt's the first bytes are kept as leftovers.
fn meet(
    fate: Option<Fate>,
    product: Vec<u8>,
    leftovers: &mut Vec<Vec<u8>>,
) -> Result<Vec<u8>, HandFault>
    ensures answer { MeetsFate fate product.items result }
    ensures leftovers { result ≢ Err HandFault.Memory → map (λ bytes. bytes.items) leftovers.new.items ≡ after_kill fate product.items (map (λ bytes. bytes.items) leftovers.old.items) }
    ensures memory { IsErrOf result HandFault.Memory → leftovers.new.items ≡ leftovers.old.items }
{
    match fate {
        None => Ok(product),
        Some(Fate::Killed(bytes)) => {
            let mut written = product;
            written.truncate(bytes as usize);
            match leftovers.push(written) {
                Ok(()) => Err(HandFault::Killed),
                Err(_) => Err(HandFault::Memory),
            }
        }
        Some(Fate::NotStarted) => Err(HandFault::NotStarted),
        Some(Fate::Status(status)) => Err(HandFault::Ended(status)),
        Some(Fate::NoFile) => Err(HandFault::NoFile),
    }
}

impl<K: StepWork> MemoryHand<K> {
    /// A hand without a call, whose attempts meet these fates, the first that stands there for each.
    pub fn new(alloc: Global, fates: Vec<Fated>) -> MemoryHand<K>
        ensures { result ≡ record { fates = fates.items; calls = []; leftovers = []; runs = 0; faults = 0 } }
    {
        MemoryHand {
            fates,
            calls: Vec::new(alloc),
            leftovers: Vec::new(alloc),
            runs: 0,
            faults: 0,
            of: PhantomData,
        }
    }

    /// How many runs there were.
    pub fn run_count(&self) -> u64
        ensures { result ≡ self.now.runs }
    {
        self.runs
    }

    // Keeps the call.
    fn note_call(
        &mut self,
        alloc: Global,
        job: u32,
        attempt: u32,
        task: &[u8],
    ) -> Result<(), AllocError>
        ensures ok { OnOk result (self.new ≡ record self.old { calls = self.old.calls ++ call_of job attempt task.now ∷ [] }) }
        ensures err { OnErr result (self.new ≡ self.old) }
    {
        let call = call_with(alloc, job, attempt, task)?;
        self.calls.push(call)?;
        Ok(())
    }

    // The answer of the attempt, whose call is kept.
    fn answer<R: Threads + Sync>(
        &mut self,
        rt: &R,
        alloc: Global,
        job: u32,
        attempt: u32,
        task: &[u8],
    ) -> Result<Vec<u8>, HandFault>
        ensures product { IfOk result (λ product. product.items ≡ K.text task.now) }
        ensures fated { K.is_task task.now → AnswersFails (Some (map fail_of self.old.fates)) job attempt result }
        ensures no_task { ¬ K.is_task task.now → IsErrOf result (HandFault.Ended 9) ⊎ IsErrOf result HandFault.Memory }
        ensures leftovers { K.is_task task.now → result ≢ Err HandFault.Memory → self.new.leftovers ≡ after_kill (fate_for job attempt self.old.fates) (K.text task.now) self.old.leftovers }
        ensures no_leftovers { ¬ K.is_task task.now → self.new.leftovers ≡ self.old.leftovers }
        ensures memory { IsErrOf result HandFault.Memory → self.new.leftovers ≡ self.old.leftovers }
        ensures rest { self.new ≡ record self.old { leftovers = self.new.leftovers } }
    {
        let product = match product_of::<K, R>(rt, alloc, task) {
            Ok(product) => product,
            Err(fault) => return Err(fault),
        };
        let fate = first_fate(self.fates.as_slice(), job, attempt);
        meet(fate, product, &mut self.leftovers)
    }
}

impl<K> Honest for MemoryHand<K> {
    ghost honest = { ⊤ };
}

impl<K: StepWork> Hand<K> for MemoryHand<K> {
    ghost runs = { λ h. h.runs };

    ghost faults = { λ h. h.faults };

    ghost fails = { λ h. Some (map fail_of h.fates) };

    ghost calls = { λ h. Some h.calls };

    fn run<R: Threads + Wait + Sync>(
        &mut self,
        rt: &R,
        alloc: Global,
        job: u32,
        attempt: u32,
        task: &[u8],
    ) -> Result<Vec<u8>, HandFault>
        requires { IsSync R.row }
        ensures product { IfOk result (λ product. product.items ≡ K.text task.now) }
        ensures fates { self.new.fates ≡ self.old.fates }
        ensures answers_fails { K.is_task task.now → AnswersFails (Some (map fail_of self.old.fates)) job attempt result }
        ensures no_task { ¬ K.is_task task.now → IsErrOf result (HandFault.Ended 9) ⊎ IsErrOf result HandFault.Memory }

        // A killed attempt leaves the first bytes of its product, and no other leaves any.
        ensures leftovers { K.is_task task.now → result ≢ Err HandFault.Memory → self.new.leftovers ≡ after_kill (fate_for job attempt self.old.fates) (K.text task.now) self.old.leftovers }
        ensures no_leftovers { ¬ K.is_task task.now → self.new.leftovers ≡ self.old.leftovers }
        ensures memory_leftovers { IsErrOf result HandFault.Memory → self.new.leftovers ≡ self.old.leftovers }

        ensures called { result ≢ Err HandFault.Memory → self.new.calls ≡ self.old.calls ++ call_of job attempt task.now ∷ [] }
        ensures called_memory { IsErrOf result HandFault.Memory → (self.new.calls ≡ self.old.calls ++ call_of job attempt task.now ∷ []) ⊎ (self.new.calls ≡ self.old.calls) }

        ensures counted { self.new.runs ≡ raised self.old.runs }
        ensures ran { Rose self.old.runs self.new.runs }
        ensures failed { IfErr result (λ fault. fault ≢ HandFault.Memory → Rose self.old.faults self.new.faults) }
        ensures steady { self.new.faults ≡ faults_after result self.old.faults }
        ensures faults { self.old.faults ≤ self.new.faults }
        ensures bounded { (self.new.runs < 2 ^ 64) × (self.new.faults < 2 ^ 64) }
    {
        self.runs = self.runs.saturating_add(1);
        if self.note_call(alloc, job, attempt, task).is_err() {
            return Err(HandFault::Memory);
        }
        let answer = self.answer(rt, alloc, job, attempt, task);
        self.faults = count_after(self.faults, &answer);
        answer
    }
}
