// Runs of attempts on hands.

ghost use Rattle.std.specs.Prelude.{◌<◌, drop, length};

use crate::given::{parts, put_answer};
use check_lines::{Words, parsed, unknown_line};
use local_hand::LocalHand;
use outside::{Fate, Fated, Hand, LyingHand, MemoryHand, StepWork, Watch, WorkFault};
use std::alloc::Global;
use std::io;
use std::io::Write;
use std::sync::Wait;
use std::thread::Threads;

/// A work whose tasks are the products behind one byte more.
pub(crate) struct Unwrapping;

impl StepWork for Unwrapping {
    ghost is_task = { λ task. 0 < length task };

    ghost text = { λ task. drop 1 task };

    fn work<R: Threads + Sync, W: Watch>(
        rt: &R,
        alloc: Global,
        task: &[u8],
        watch: &mut W,
    ) -> Result<Vec<u8>, WorkFault> {
        let _ = rt;
        if task.is_empty() {
            return Err(WorkFault::BadTask);
        }
        if watch.asked() {
            return Err(WorkFault::Stopped);
        }
        match Vec::from_slice(alloc, &task[1..]) {
            Ok(product) => Ok(product),
            Err(_) => Err(WorkFault::Memory),
        }
    }
}

// What attempts meet by its name, and the number behind it.
fn fate(name: &str, number: &str) -> io::Result<Fate> {
    match name {
        "killed" => Ok(Fate::Killed(parsed::<u64>(number)?)),
        "not-started" => Ok(Fate::NotStarted),
        "status" => Ok(Fate::Status(parsed::<u8>(number)?)),
        "no-file" => Ok(Fate::NoFile),
        _ => Err(unknown_line()),
    }
}

// An attempt of job 1, and what it meets.
fn fated(word: &str) -> io::Result<Fated> {
    let (attempt, fate_word) = parts(word)?;
    let (name, number) = fate_word.split_once(':').unwrap_or((fate_word, ""));
    Ok(Fated {
        job: 1,
        attempt: parsed::<u32>(attempt)?,
        fate: fate(name, number)?,
    })
}

// The fates that a word lists.
fn fates(alloc: Global, word: &str) -> io::Result<Vec<Fated>> {
    let mut fates = Vec::new(alloc);
    for word in word.split(',') {
        fates.push(fated(word)?)?;
    }
    Ok(fates)
}

// Runs the attempts of a line.
fn answer_runs<K: StepWork, R: Threads + Wait + Sync, H: Hand<K>, W: Write>(
    rt: &R,
    alloc: Global,
    hand: &mut H,
    words: &Words<'_>,
    out: &mut W,
) -> io::Result<()> {
    for word in words.rest().split(' ') {
        let (attempt, task) = parts(word)?;
        let attempt = parsed::<u32>(attempt)?;
        put_answer(out, &hand.run(rt, alloc, 1, attempt, task.as_bytes()))?;
    }
    Ok(())
}

/// Runs on a hand in memory, and how many there were.
pub(crate) fn answer_hand<R: Threads + Wait + Sync, W: Write>(
    rt: &R,
    alloc: Global,
    words: &mut Words<'_>,
    out: &mut W,
) -> io::Result<()> {
    let fates = fates(alloc, words.next()?)?;
    let mut hand = MemoryHand::<Unwrapping>::new(alloc, fates);
    answer_runs::<Unwrapping, R, MemoryHand<Unwrapping>, W>(rt, alloc, &mut hand, words, out)?;
    write!(out, "; {} runs", hand.run_count())
}

/// Runs on a hand that cuts its products.
pub(crate) fn answer_lying<R: Threads + Wait + Sync, W: Write>(
    rt: &R,
    alloc: Global,
    words: &mut Words<'_>,
    out: &mut W,
) -> io::Result<()> {
    let mut hand = LyingHand::<Unwrapping>::new(u64::from(words.number()?));
    answer_runs::<Unwrapping, R, LyingHand<Unwrapping>, W>(rt, alloc, &mut hand, words, out)
}

/// Runs on a hand of the product.
pub(crate) fn answer_local<R: Threads + Wait + Sync, W: Write>(
    rt: &R,
    alloc: Global,
    words: &mut Words<'_>,
    out: &mut W,
) -> io::Result<()> {
    let mut hand = LocalHand::<Unwrapping>::new();
    answer_runs::<Unwrapping, R, LocalHand<Unwrapping>, W>(rt, alloc, &mut hand, words, out)
}
