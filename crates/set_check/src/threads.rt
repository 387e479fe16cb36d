// A row that one thread publishes in and another pins from.

ghost use Rattle.std.specs.Prelude.{IfOk};
ghost use Rattle.std.specs.Arc.{arc_value};
ghost use Rattle.version_row.specs.Rows.{IsOf};

use crate::versions::{Token, Version};
use check_lines::Words;
use cube_desc::CubeDesc;
use std::alloc::{AllocError, Global};
use std::io;
use std::io::Write;
use std::sync::{Arc, Wait};
use std::thread::{self, Threads};
use version_row::{Session, VersionRow};

// Publishes sets of the versions from one number to before another. Whether the set of each token has its version.
fn publish_all<R: Wait>(
    rt: &R,
    row: &VersionRow<Version>,
    from: u32,
    to: u32,
) -> Result<bool, AllocError> {
    for version in from..to {
        let token = row.publish(rt, Version(version))?;
        if row.set(&token).0 != version {
            return Ok(false);
        }
    }
    Ok(true)
}

// Pins so many times, told of one token. Whether the versions never fall, from that of the token on.
fn pin_all(row: &VersionRow<Version>, told: &Token, pins: u32) -> Result<bool, AllocError>
    requires { IsOf row.now (arc_value told.now) }
{
    let mut session = Session::new(told.clone()?);
    let mut last = row.set(told).0;
    for _ in 0..pins {
        let pinned = session.pin(row, told.clone()?)?;
        let version = row.set(&pinned).0;
        if version < last {
            return Ok(false);
        }
        last = version;
    }
    Ok(true)
}

// Publishes and pins side by side.
fn side_by_side<R: Threads + Wait + Sync>(
    rt: &R,
    row: &VersionRow<Version>,
    told: &Token,
    last: u32,
    pins: u32,
) -> Result<(bool, bool), AllocError>
    requires { IsOf row.now (arc_value told.now) }
{
    let next = row.set(told).0.saturating_add(1);
    let (published, pinned) = thread::join(
        rt,
        || publish_all(rt, row, next, last.saturating_add(1)),
        || -> Result<bool, AllocError>
            requires { IsOf row.now (arc_value told.now) }
        { pin_all(row, told, pins) },
    );
    Ok((published?, pinned?))
}

/// A row in two threads.
pub(crate) fn answer_threads<R: Threads + Wait + Sync, W: Write>(
    rt: &R,
    alloc: Global,
    desc: Arc<CubeDesc>,
    words: &mut Words<'_>,
    out: &mut W,
) -> io::Result<()> {
    let known = words.number()?;
    let last = words.number()?;
    let pins = words.number()?;
    let row = VersionRow::new(alloc, desc)?;
    let before = publish_all(rt, &row, 0, known)?;
    let told = row.publish(rt, Version(known))?;
    let (published, pinned) = side_by_side(rt, &row, &told, last, pins)?;
    write!(out, " {before} {published} {pinned}")
}
