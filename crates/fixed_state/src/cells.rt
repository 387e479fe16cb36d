// The cells of ready segments, and the answer over them.

ghost use Rattle.std.specs.Prelude.{◌≡◌, ◌≤◌, ◌==◌, IfOk, length, map};
ghost use Rattle.std.specs.Arc.{arc_value};
ghost use Rattle.fixed_cube.specs.Answers.{answer_of, by_first};
ghost use Rattle.fixed_cube.specs.Cube.{fixed};
ghost use Rattle.run_history.specs.Sets.{ReadySet, rows_of};
ghost use Rattle.run_history.specs.Verdicts.{most_segments};
ghost use Rattle.fixed_state.specs.Ready.{AreCellsOf, cells_in};

use crate::ready::{FixedReady, KeptSegment};
use fixed_cube::{FixedCells, answer_over};
use plain_answer::AnswerTable;
use std::alloc::{AllocError, Global};
use std::marker::Model;
use std::sync::Arc;

/// A handle of the cells of a ready segment, which are shared. Contracts see the list of the cells.
#[derive(Drop)]
pub struct SharedCells {
    cells: Arc<FixedCells>,
}

impl Model for SharedCells {
    ghost use Rattle.std.specs.Prelude.{List};
    ghost use Rattle.std.specs.Arc.{arc_value};
    ghost use Rattle.cube_val.specs.declared.val.Val.{Val};
    ghost use Rattle.measure_laws.specs.Measures.{Summed};

    ghost Value = { List (List Val × Summed) };

    ghost view = { λ c. arc_value c.cells };
}

impl SharedCells {
    /// A first handle of these cells.
    pub fn new(alloc: Global, cells: FixedCells) -> Result<SharedCells, AllocError>
        ensures { IfOk result (λ shared. shared ≡ cells) }
    {
        match Arc::new(alloc, cells) {
            Ok(cells) => Ok(SharedCells { cells }),
            Err(_) => Err(AllocError),
        }
    }

    /// The cells.
    pub fn cells(&self) -> &FixedCells
        ensures { result.now ≡ self.now }
    {
        &self.cells
    }

    /// Another handle of the same cells.
    pub fn copy(&self) -> Result<SharedCells, AllocError>
        ensures { IfOk result (λ copied. copied ≡ self.now) }
    {
        let cells = self.cells.clone()?;
        Ok(SharedCells { cells })
    }
}

/// The cells of each segment of a ready set, at most 128 of them. Contracts see the list of these.
#[derive(Drop)]
pub struct ReadyCells {
    segments: Vec<SharedCells>,
}

impl Model for ReadyCells {
    ghost use Rattle.std.specs.Prelude.{List, ◌≤◌, length};
    ghost use Rattle.cube_val.specs.declared.val.Val.{Val};
    ghost use Rattle.measure_laws.specs.Measures.{Summed};
    ghost use Rattle.run_history.specs.Verdicts.{most_segments};

    ghost Value = { List (List (List Val × Summed)) };

    ghost view = { λ r. r.segments.items };

    ghost invariant = { λ r. length r.segments.items ≤ most_segments };
}

// Other handles of the segments' cells.
fn copies(alloc: Global, segments: &[Arc<KeptSegment>]) -> Result<Vec<SharedCells>, AllocError>
    ensures { IfOk result (λ copied. copied.items ≡ map (λ segment. cells_in (arc_value segment)) segments.now) }
{
    let mut copied = Vec::new(alloc);
    for segment in segments {
        let cells = segment.cells.copy()?;
        copied.push(cells)?;
    }
    Ok(copied)
}

/// The cells of the segments of a ready set.
pub fn ready_cells(alloc: Global, ready: &FixedReady) -> Result<ReadyCells, AllocError>
    requires { length ready.now.cells ≤ most_segments }
    ensures { IfOk result (λ cells. cells ≡ ready.now.cells) }
{
    let segments = copies(alloc, ready.segments())?;
    Ok(ReadyCells { segments })
}

// The cells behind the handles.
fn refs_of<'a>(
    alloc: Global,
    segments: &'a [SharedCells],
) -> Result<Vec<&'a FixedCells>, AllocError>
    ensures { IfOk result (λ lists. map (λ cells. cells.now) lists.items ≡ segments.now) }
{
    let mut lists = Vec::new(alloc);
    for segment in segments {
        lists.push(segment.cells())?;
    }
    Ok(lists)
}

impl ReadyCells {
    /// How many segments there are.
    pub fn len(&self) -> usize
        ensures count { result ≡ length self.now }
        ensures few { result ≤ most_segments }
    {
        self.segments.len()
    }

    /// Whether there is no segment.
    pub fn is_empty(&self) -> bool
        ensures { result ≡ (length self.now == 0) }
    {
        self.segments.is_empty()
    }

    /// The answer to the one query: the cells of the segments, gathered by D1. Where they are the cells of a ready set, it is the plain
    /// answer over the rows of this set.
    pub fn answer(&self, alloc: Global) -> Result<AnswerTable, AllocError>
        ensures exact { IfOk result (λ answer. answer ≡ answer_of self.now) }
        ensures plain { (set : ReadySet) → AreCellsOf set self.now → IfOk result (λ answer. answer ≡ fixed.answer by_first (rows_of fixed set)) }
    {
        let lists = refs_of(alloc, &self.segments)?;
        match answer_over(alloc, &lists) {
            Ok(answer) => Ok(answer),
            Err(e) => Err(e),
        }
    }
}
