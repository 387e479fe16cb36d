// A hand that starts programs.

ghost use denote.Param.Send.{IsSync};
ghost use Rattle.std.specs.Prelude.{◌≡◌, ◌≢◌, ◌≤◌, ◌<◌, ◌^◌, IfErr, None, OnErr, OnOk, string_bytes};
ghost use Rattle.outside.specs.Counts.{Rose, raised};

use crate::child::run_step;
use crate::os_files::OsFiles;
use crate::paths::{WORK_FOLDER, product_path, stop_path, task_path};
use outside::{FileFault, Files, Hand, HandFault, Honest, StepWork};
use std::alloc::Global;
use std::fs;
use std::io::ErrorKind;
use std::marker::Model;
use std::process::Processes;
use std::sync::Wait;
use std::thread::Threads;

/// A hand that starts a program for each step, and has the step's task and product in files. It owns the handle of the
/// system, since whoever runs it has no right to start programs. Nothing is known of a product but that it was read.
#[derive(Drop)]
pub struct ProcHand<P> {
    host: P,
    program: String,
    runs: u64,
    faults: u64,
}

impl<P> Model for ProcHand<P> {
    ghost use Rattle.std.specs.Prelude.{◌<◌, ◌^◌, string_bytes};
    ghost use Rattle.os_objects.specs.Hands.{ProcState};

    ghost Value = { ProcState };

    ghost view = { λ h. record { program = string_bytes h.program; runs = h.runs; faults = h.faults } };

    ghost invariant = { λ h. (h.runs < 2 ^ 64) × (h.faults < 2 ^ 64) };
}

impl<P> ProcHand<P> {
    /// A hand without a run, which starts the program at this path.
    pub fn new(host: P, program: String) -> ProcHand<P>
        ensures { result ≡ record { program = string_bytes program; runs = 0; faults = 0 } }
    {
        ProcHand {
            host,
            program,
            runs: 0,
            faults: 0,
        }
    }
}

impl<P> Honest for ProcHand<P> {
    ghost honest = { ⊥ };
}

// Whether the folder of the attempts' files is there now.
fn make_folder<P: std::rt::Files>(host: &P) -> bool {
    match fs::create_dir(host, WORK_FOLDER) {
        Ok(()) => true,
        Err(error) => error.kind() == ErrorKind::AlreadyExists,
    }
}

// Whether nothing stands at the path now.
fn remove<P: std::rt::Files>(host: &P, path: &str) -> bool {
    match fs::remove_file(host, path) {
        Ok(()) => true,
        Err(error) => error.kind() == ErrorKind::NotFound,
    }
}

// The product that the program makes of the task, as this attempt.
fn attempt_step<P: Processes + std::rt::Files>(
    host: &P,
    alloc: Global,
    program: &str,
    job: u32,
    attempt: u32,
    task: &[u8],
) -> Result<Vec<u8>, HandFault> {
    let (Ok(task_at), Ok(product_at), Ok(stop_at)) = (
        task_path(alloc, job, attempt),
        product_path(alloc, job, attempt),
        stop_path(alloc, job, attempt),
    ) else {
        return Err(HandFault::Memory);
    };
    let clean = make_folder(host)
        && remove(host, task_at.as_str())
        && remove(host, product_at.as_str())
        && remove(host, stop_at.as_str());
    if !clean || fs::write(host, task_at.as_str(), task).is_err() {
        return Err(HandFault::NotStarted);
    }
    run_step(
        host,
        alloc,
        program,
        task_at.as_str(),
        product_at.as_str(),
        stop_at.as_str(),
    )?;
    match OsFiles::new(host).read(alloc, product_at.as_str(), u64::MAX) {
        Ok(product) => Ok(product),
        Err(FileFault::Memory) => Err(HandFault::Memory),
        Err(_) => Err(HandFault::NoFile),
    }
}

impl<K: StepWork, P: Processes + std::rt::Files> Hand<K> for ProcHand<P> {
    ghost runs = { λ h. h.runs };

    ghost faults = { λ h. h.faults };

    ghost fails = { λ _. None };

    ghost calls = { λ _. None };

    fn run<R: Threads + Wait + Sync>(
        &mut self,
        _rt: &R,
        alloc: Global,
        job: u32,
        attempt: u32,
        task: &[u8],
    ) -> Result<Vec<u8>, HandFault>
        requires { IsSync R.row }
        ensures counted { self.new.runs ≡ raised self.old.runs }
        ensures ran { Rose self.old.runs self.new.runs }

        // Each Err counts, want of memory too.
        ensures failed_counted { OnErr result (self.new.faults ≡ raised self.old.faults) }
        ensures ok_not_counted { OnOk result (self.new.faults ≡ self.old.faults) }
        ensures failed { IfErr result (λ fault. fault ≢ HandFault.Memory → Rose self.old.faults self.new.faults) }
        ensures faults { self.old.faults ≤ self.new.faults }
        ensures bounded { (self.new.runs < 2 ^ 64) × (self.new.faults < 2 ^ 64) }
        ensures program { self.new.program ≡ self.old.program }
    {
        self.runs = self.runs.saturating_add(1);
        let answer = attempt_step(&self.host, alloc, self.program.as_str(), job, attempt, task);
        if answer.is_err() {
            self.faults = self.faults.saturating_add(1);
        }
        answer
    }
}
