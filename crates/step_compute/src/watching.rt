// Looks at a watch.

ghost use Rattle.std.specs.Prelude.{IsErrOf};
ghost use Rattle.step_compute.specs.Watched.{Looked, SawStop};

use crate::fault::StepFault;
use outside::Watch;

/// How many rows are gone through after a look.
pub(crate) const ROWS_PER_LOOK: usize = 1_000;

/// One look. `Stopped` comes only where a stop was seen.
pub fn look<W: Watch>(watch: &mut W) -> Result<(), StepFault>
    ensures looked { Looked W.seen W.there W.held W.place watch.old watch.new }
    ensures stopped { IsErrOf result StepFault.Stopped → SawStop W.seen W.there watch.old watch.new }
{
    if watch.asked() {
        Err(StepFault::Stopped)
    } else {
        Ok(())
    }
}
