// A hand that cuts its products.

ghost use denote.Param.Send.{IsSync};
ghost use Rattle.std.specs.Prelude.{◌≡◌, ◌≢◌, ◌≤◌, ◌<◌, ◌^◌, ◌⊎◌, [], Some, None, Err, IfErr, IfOk, IsErrOf};
ghost use Rattle.outside.specs.Counts.{Rose, raised};
ghost use Rattle.outside.specs.Hands.{AnswersFails};
ghost use Rattle.outside.specs.LyingHand.{without_last};
ghost use Rattle.outside.specs.MemoryHand.{faults_after};

use crate::hand::{Hand, HandFault, Honest};
use crate::product::{count_after, product_of};
use crate::work::StepWork;
use std::alloc::Global;
use std::marker::{Model, PhantomData};
use std::sync::Wait;
use std::thread::Threads;

/// A hand that isn't honest: it answers each product without its last bytes.
#[derive(Drop)]
pub struct LyingHand<K> {
    cut: u64,
    runs: u64,
    faults: u64,
    of: PhantomData<K>,
}

impl<K> Model for LyingHand<K> {
    ghost use Rattle.std.specs.Prelude.{◌<◌, ◌^◌};
    ghost use Rattle.outside.specs.LyingHand.{LyingState};

    ghost Value = { LyingState };

    ghost view = { λ h. record { cut = h.cut; runs = h.runs; faults = h.faults } };

    ghost invariant = { λ h. (h.runs < 2 ^ 64) × (h.faults < 2 ^ 64) };
}

impl<K> LyingHand<K> {
    /// A hand without a run, which cuts so many bytes off each product.
    pub fn new(cut: u64) -> LyingHand<K>
        ensures { result ≡ record { cut = cut; runs = 0; faults = 0 } }
    {
        LyingHand {
            cut,
            runs: 0,
            faults: 0,
            of: PhantomData,
        }
    }
}

impl<K> Honest for LyingHand<K> {
    ghost honest = { ⊥ };
}

impl<K: StepWork> Hand<K> for LyingHand<K> {
    ghost runs = { λ h. h.runs };

    ghost faults = { λ h. h.faults };

    ghost fails = { λ _. Some [] };

    ghost calls = { λ _. None };

    fn run<R: Threads + Wait + Sync>(
        &mut self,
        rt: &R,
        alloc: Global,
        _job: u32,
        _attempt: u32,
        task: &[u8],
    ) -> Result<Vec<u8>, HandFault>
        requires { IsSync R.row }
        ensures cut { IfOk result (λ product. product.items ≡ without_last self.old.cut (K.text task.now)) }
        ensures task { K.is_task task.now → IfErr result (λ fault. fault ≡ HandFault.Memory) }
        ensures no_task { ¬ K.is_task task.now → IsErrOf result (HandFault.Ended 9) ⊎ IsErrOf result HandFault.Memory }
        ensures same { self.new.cut ≡ self.old.cut }

        ensures counted { self.new.runs ≡ raised self.old.runs }
        ensures ran { Rose self.old.runs self.new.runs }
        ensures failed { IfErr result (λ fault. fault ≢ HandFault.Memory → Rose self.old.faults self.new.faults) }
        ensures steady { self.new.faults ≡ faults_after result self.old.faults }
        ensures faults { self.old.faults ≤ self.new.faults }
        ensures answers_fails { K.is_task task.now → AnswersFails (Some []) _job _attempt result }
        ensures bounded { (self.new.runs < 2 ^ 64) × (self.new.faults < 2 ^ 64) }
    {
        self.runs = self.runs.saturating_add(1);
        let answer = product_of::<K, R>(rt, alloc, task);
        self.faults = count_after(self.faults, &answer);
        let mut product = match answer {
            Ok(product) => product,
            Err(fault) => return Err(fault),
        };
        product.truncate(product.len().saturating_sub(self.cut as usize));
        Ok(product)
    }
}
