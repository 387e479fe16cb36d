// The texts of refusals.

ghost use Rattle.std.specs.Prelude.{◌≡◌, ◌++◌, codes, IfOk};
ghost use Rattle.std.specs.Fmt.{decimal};
ghost use Rattle.script_text.specs.Blocks.{refusal_text};

use crate::range::range_text;
use crate::text::{with_number, with_text};
use run_history::Refused;
use std::alloc::{AllocError, Global};

// The kind of a fault and its place, behind a word.
fn fault_text(alloc: Global, word: &[u8], kind: &str, place: u32) -> Result<Vec<u8>, AllocError>
    ensures { IfOk result (λ text. text.items ≡ word.now ++ kind.now ++ codes " " ++ decimal place) }
{
    let mut text = with_text(alloc, word, kind.as_bytes())?;
    let place = with_number(alloc, b" ", u64::from(place))?;
    text.extend_from_slice(&place)?;
    Ok(text)
}

/// Why a command was refused.
pub fn refusal_text(alloc: Global, refused: &Refused) -> Result<Vec<u8>, AllocError>
    ensures { IfOk result (λ text. text.items ≡ refusal_text refused.now) }
{
    match refused {
        Refused::NotLoaded(table) => with_text(alloc, b"NotLoaded ", table.bytes()),
        Refused::TooManySegments => Vec::from_slice(alloc, b"TooManySegments"),
        Refused::OverlapsSegment(range) => {
            let range = range_text(alloc, range)?;
            with_text(alloc, b"OverlapsSegment ", range.as_slice())
        }
        Refused::OverlapsJob(job) => with_number(alloc, b"OverlapsJob ", u64::from(*job)),
        Refused::NoSuchSegment => Vec::from_slice(alloc, b"NoSuchSegment"),
        Refused::NotOnBounds => Vec::from_slice(alloc, b"NotOnBounds"),
        Refused::OneSegment => Vec::from_slice(alloc, b"OneSegment"),
        Refused::Hole(day) => with_text(alloc, b"Hole ", &day.text()),
        Refused::LookupsDiffer(table) => with_text(alloc, b"LookupsDiffer ", table.bytes()),
        Refused::NoSuchJob(job) => with_number(alloc, b"NoSuchJob ", u64::from(*job)),
        Refused::JobEnded(state) => with_text(alloc, b"JobEnded ", state.as_str().as_bytes()),
        Refused::WrongState(state) => with_text(alloc, b"WrongState ", state.as_str().as_bytes()),
        Refused::NoSuchTable(name) => with_text(alloc, b"NoSuchTable ", name.bytes()),
        Refused::Sql(fault) => fault_text(alloc, b"Sql ", fault.kind.as_str(), fault.place),
        Refused::Bind(fault) => fault_text(alloc, b"Bind ", fault.kind.as_str(), fault.place),
    }
}
