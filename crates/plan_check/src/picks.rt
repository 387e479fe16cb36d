// Plans of cuboids, and traces.

use agg_group::Mask;
use check_lines::{Words, known, parsed};
use cuboid_planner::{Pick, Size, are_sizes, check_trace, greedy};
use std::alloc::Global;
use std::io;
use std::io::Write;

// The cuboid whose mask and rows stand on both sides of a colon.
fn size_in(word: &str) -> io::Result<Size> {
    let (mask, rows) = known(word.split_once(':'))?;
    Ok(Size {
        mask: Mask(parsed(mask)?),
        rows: parsed(rows)?,
    })
}

// The cuboids that the words write.
fn sizes_in(alloc: Global, words: &str) -> io::Result<Vec<Size>> {
    let mut sizes = Vec::new(alloc);
    for word in words.split(' ') {
        sizes.push(size_in(word)?)?;
    }
    Ok(sizes)
}

// The choice whose mask, rows, benefit and total stand between colons.
fn pick_in(word: &str) -> io::Result<Pick> {
    let (mask, rest) = known(word.split_once(':'))?;
    let (rows, rest) = known(rest.split_once(':'))?;
    let (benefit, total) = known(rest.split_once(':'))?;
    Ok(Pick {
        mask: Mask(parsed(mask)?),
        rows: parsed(rows)?,
        benefit: parsed(benefit)?,
        total: parsed(total)?,
    })
}

// The choices that the words write; no word is no choice.
fn picks_in(alloc: Global, words: &str) -> io::Result<Vec<Pick>> {
    let mut picks = Vec::new(alloc);
    for word in words.split(' ') {
        if !word.is_empty() {
            picks.push(pick_in(word)?)?;
        }
    }
    Ok(picks)
}

fn put_pick<W: Write>(pick: &Pick, out: &mut W) -> io::Result<()> {
    write!(
        out,
        "{}:{}:{}:{}",
        pick.mask.0, pick.rows, pick.benefit, pick.total
    )
}

// Writes the choices, parted by spaces.
fn put_picks<W: Write>(picks: &[Pick], out: &mut W) -> io::Result<()> {
    if picks.is_empty() {
        return out.write_all(b"nothing");
    }
    let mut between: &[u8] = b"";
    for pick in picks {
        out.write_all(between)?;
        put_pick(pick, out)?;
        between = b" ";
    }
    Ok(())
}

/// `greedy MOST MASK:ROWS ..`: the choices of the plan, parted by spaces.
pub fn answer_greedy<W: Write>(
    alloc: Global,
    words: &mut Words<'_>,
    out: &mut W,
) -> io::Result<()> {
    let most = words.number()?;
    let sizes = sizes_in(alloc, words.rest())?;
    if !are_sizes(sizes.as_slice()) {
        return out.write_all(b"unfit");
    }
    let picks = greedy(alloc, sizes.as_slice(), most)?;
    put_picks(picks.as_slice(), out)
}

/// `trace MASK:ROWS .. | MASK:ROWS:BENEFIT:TOTAL ..`: whether the choices are the first of the plan.
pub fn answer_trace<W: Write>(alloc: Global, words: &str, out: &mut W) -> io::Result<()> {
    let (sizes, picks) = known(words.split_once(" |"))?;
    let sizes = sizes_in(alloc, sizes)?;
    let picks = picks_in(alloc, picks)?;
    if !are_sizes(sizes.as_slice()) {
        return out.write_all(b"unfit");
    }
    match check_trace(sizes.as_slice(), picks.as_slice()) {
        Ok(()) => out.write_all(b"ok"),
        Err(place) => write!(out, "wrong at {place}"),
    }
}
