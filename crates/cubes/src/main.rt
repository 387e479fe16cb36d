//! The program `cubes`: the commands of the engine over the files of the system and standard output.
//!
//! It is the top of the layers and holds no logic of its own. The outside as the crates below meet it comes from
//! `os_objects`, and the steps of jobs are run by one `LocalHand`, in this process. Files and standard output tell nothing
//! of what they hold, so what is proved here is that the program is safe. `main` reads the words, calls `run` with them and
//! ends with the status that it says.
#![tactic(auto)]

ghost use Rattle.std.specs.Prelude.{◌≡◌, IfOk, length};

use cubes_top::run;
use fault_lines::status::MEMORY;
use fixed_cube::SmallWork;
use local_hand::LocalHand;
use os_objects::{OsFiles, OsStopper, StdSink};
use std::alloc::{AllocError, Global};
use std::env;
use std::io::ErrorKind;
use std::process::ExitCode;

// The words after the program's own name. Words of which one is no text are no command's, and come as none.
fn words<R: std::rt::Env + AllocGlobal>(rt: &R) -> Result<Vec<String>, AllocError> {
    match env::args(rt) {
        Ok(words) => words.skip(1).collect(rt.alloc()),
        Err(error) if error.kind() == ErrorKind::InvalidData => Ok(Vec::new(rt.alloc())),
        Err(_) => Err(AllocError),
    }
}

// The one hand.
fn hands(alloc: Global) -> Result<Vec<LocalHand<SmallWork>>, AllocError>
    ensures { IfOk result (λ hands. length hands.items ≡ 1) }
{
    let mut hands = Vec::new(alloc);
    hands.push(LocalHand::new())?;
    Ok(hands)
}

fn main(rt: HostRuntime) -> ExitCode {
    let (Ok(words), Ok(hands)) = (words(&rt), hands(rt.alloc())) else {
        return ExitCode::from(MEMORY);
    };
    let mut files = OsFiles::new(&rt);
    let mut stopper = OsStopper::new(&rt);
    let mut sink = StdSink::new(rt.stdout());
    let ran = run(
        &rt,
        rt.alloc(),
        words.as_slice(),
        &mut files,
        hands,
        &mut stopper,
        &mut sink,
    );
    ExitCode::from(ran.status)
}
