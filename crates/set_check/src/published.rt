// Ready sets in a row.

use crate::segments::Exact;
use cube_desc::CubeDesc;
use segment_store::ReadySet;
use std::alloc::Global;
use std::io;
use std::io::Write;
use std::sync::{Arc, Wait};
use version_row::VersionRow;

/// Publishes the empty set.
pub(crate) fn answer_publish<R: Wait, W: Write>(
    rt: &R,
    alloc: Global,
    desc: Arc<CubeDesc>,
    out: &mut W,
) -> io::Result<()> {
    let row = VersionRow::new(alloc, desc)?;
    let empty: ReadySet<Exact> = ReadySet::empty(alloc);
    let token = row.publish(rt, empty)?;
    let set = row.set(&token);
    write!(out, " {}:{}", set.version(), set.len())
}
