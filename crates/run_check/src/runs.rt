// Runs of the program, and what is written of them.

ghost use Rattle.std.specs.Prelude.{◌≡◌, IfOk, length};

use crate::given::Given;
use check_lines::Words;
use cubes_top::{Ran, run};
use fixed_cube::SmallWork;
use outside::{Hand, LyingHand, MemoryHand, MemorySink, MemoryStopper};
use std::alloc::{AllocError, Global};
use std::io;
use std::io::Write;
use std::sync::Wait;
use std::thread::Threads;

// The one hand.
fn hands_of<H: Drop>(alloc: Global, hand: H) -> Result<Vec<H>, AllocError>
    ensures { IfOk result (λ hands. length hands.items ≡ 1) }
{
    let mut hands = Vec::new(alloc);
    hands.push(hand)?;
    Ok(hands)
}

// Runs the words on the hand, with the output to the sink.
fn run_on<R: Threads + Wait + Sync, H: Hand<SmallWork> + Send + Sync + Drop + 'static>(
    rt: &R,
    alloc: Global,
    given: &mut Given,
    words: &[String],
    hand: H,
    sink: &mut MemorySink,
) -> Result<Ran<H>, AllocError> {
    let hands = hands_of(alloc, hand)?;
    let mut files = given.files(alloc)?;
    let mut stopper = MemoryStopper::new(alloc, Vec::new(alloc));
    Ok(run(rt, alloc, words, &mut files, hands, &mut stopper, sink))
}

// Writes the output of a run, and its status.
fn put_output<W: Write>(sink: &MemorySink, status: u8, out: &mut W) -> io::Result<()> {
    out.write_all(sink.bytes())?;
    writeln!(out, "status {status}")
}

// Runs the words on a hand in memory, and writes the output and the status.
fn run_given<R: Threads + Wait + Sync, W: Write>(
    rt: &R,
    alloc: Global,
    given: &mut Given,
    words: Words<'_>,
    out: &mut W,
) -> io::Result<Ran<MemoryHand<SmallWork>>> {
    let words = words.strings(alloc)?;
    let hand = given.hand(alloc);
    let mut sink = given.sink(alloc);
    let ran = run_on(rt, alloc, given, words.as_slice(), hand, &mut sink)?;
    put_output(&sink, ran.status, out)?;
    Ok(ran)
}

/// Runs the words.
pub(crate) fn answer_run<R: Threads + Wait + Sync, W: Write>(
    rt: &R,
    alloc: Global,
    given: &mut Given,
    words: Words<'_>,
    out: &mut W,
) -> io::Result<()> {
    let _ran = run_given(rt, alloc, given, words, out)?;
    Ok(())
}

// Writes how many steps each hand ran, and the events.
fn put_history<W: Write>(ran: &Ran<MemoryHand<SmallWork>>, out: &mut W) -> io::Result<()> {
    for hand in &ran.hands {
        writeln!(out, "{} steps run", hand.run_count())?;
    }
    for event in &ran.history {
        writeln!(out, "{event:?}")?;
    }
    Ok(())
}

/// Runs the words, and writes the history too.
pub(crate) fn answer_history<R: Threads + Wait + Sync, W: Write>(
    rt: &R,
    alloc: Global,
    given: &mut Given,
    words: Words<'_>,
    out: &mut W,
) -> io::Result<()> {
    let ran = run_given(rt, alloc, given, words, out)?;
    put_history(&ran, out)
}

/// Runs the words on a hand that cuts products.
pub(crate) fn answer_lying<R: Threads + Wait + Sync, W: Write>(
    rt: &R,
    alloc: Global,
    given: &mut Given,
    mut words: Words<'_>,
    out: &mut W,
) -> io::Result<()> {
    let cut = u64::from(words.number()?);
    let hand = LyingHand::<SmallWork>::new(cut);
    let words = words.strings(alloc)?;
    let mut sink = given.sink(alloc);
    let ran = run_on(rt, alloc, given, words.as_slice(), hand, &mut sink)?;
    put_output(&sink, ran.status, out)
}
