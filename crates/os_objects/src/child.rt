// A program started on a step.

use outside::HandFault;
use std::alloc::{AllocError, Global};
use std::process::{Command, ExitStatus, Processes, Stdio};

// The call of the program with `step` and the paths of task, product and stop file. It reads no input, and what it
// writes to standard output is dropped, since the output is the run's own.
fn step_command(
    alloc: Global,
    program: &str,
    task: &str,
    product: &str,
    stop: &str,
) -> Result<Command, AllocError> {
    let mut command = Command::new(alloc, program)?;
    for word in ["step", task, product, stop] {
        command.arg(word)?;
    }
    command.stdin(Stdio::null());
    command.stdout(Stdio::null());
    Ok(command)
}

// How a child ended: with status 0, with another one, or by a signal.
fn how_it_ended(status: ExitStatus) -> Result<(), HandFault> {
    match status.code() {
        Some(0) => Ok(()),
        Some(code) => Err(HandFault::Ended(code.unsigned_abs().min(255) as u8)),
        None => Err(HandFault::Killed),
    }
}

/// Starts the program on the task and waits for its end. A child whose end can't be learned counts as killed.
pub fn run_step<P: Processes>(
    host: &P,
    alloc: Global,
    program: &str,
    task: &str,
    product: &str,
    stop: &str,
) -> Result<(), HandFault> {
    let Ok(mut command) = step_command(alloc, program, task, product, stop) else {
        return Err(HandFault::Memory);
    };
    let Ok(mut child) = command.spawn(host) else {
        return Err(HandFault::NotStarted);
    };
    match child.wait() {
        Ok(status) => how_it_ended(status),
        Err(_) => Err(HandFault::Killed),
    }
}
