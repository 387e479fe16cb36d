//! Says of each line of standard input what the plans are: which segments are dropped and merged, and which cuboids are chosen.
//!
//! - `plan DAYS RETAIN START:END ..` writes the plan for ready segments of these ranges, which rise and are apart. DAYS are thresholds that
//!   rise, parted by commas, and RETAIN is how many days are retained. `nothing` stands for a plan without an action.
//! - `greedy MOST MASK:ROWS ..` writes the plan of at most so many choices among these cuboids, each choice as MASK:ROWS:BENEFIT:TOTAL. `nothing` stands
//!   for a plan without a choice.
//! - `trace MASK:ROWS .. | MASK:ROWS:BENEFIT:TOTAL ..` says whether these choices are the first of the plan, or which place is the first that isn't.
//!
//! `unfit` is written where no plan can be made of the cuboids.
//!
//! Where a line is none of these, or memory runs out, the program ends with status 1. It is no part of the product.
#![tactic(auto)]

mod merges;
mod picks;

use check_lines::{Answerer, Words, answer_lines, unknown_line};
use std::alloc::Global;
use std::io;
use std::io::Write;

/// What answers the lines. It keeps nothing from one line to the next.
#[derive(Drop)]
struct PlanCheck;

impl Answerer for PlanCheck {
    fn answer<W: Write>(&mut self, alloc: Global, line: &[u8], out: &mut W) -> io::Result<()> {
        let mut words = Words::new(line)?;
        match words.next()? {
            "plan" => merges::answer_plan(alloc, &mut words, out)?,
            "greedy" => picks::answer_greedy(alloc, &mut words, out)?,
            "trace" => picks::answer_trace(alloc, words.rest(), out)?,
            _ => return Err(unknown_line()),
        }
        out.write_all(b"\n")
    }
}

fn main(rt: HostRuntime) -> io::Result<()> {
    answer_lines(&rt, rt.alloc(), &mut PlanCheck)
}
