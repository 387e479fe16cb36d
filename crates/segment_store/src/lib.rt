//! Segments and ready sets: what a job leaves, and what a query reads.
//!
//! A [`Segment`] is a range, the number of its job, and what the job made of its sources: the dictionaries of columns, the snapshots of
//! lookups and the cell table of each cuboid. It keeps its sources too, each a plan, tables and a range ([`Snap`]), from which a REFRESH or a
//! MERGE starts. A [`ReadySet`] is the segments that are ready at one moment, by rising ranges that are apart; a swap and a
//! drop make the next set and leave the old one as it is, and both share their segments.
//!
//! At its boundary, by the types alone (`IsSegment` in `specs/Segments.antt`): numbers stand in their dictionaries, no cell is of more
//! items than the count of its row, counts are no more than the sources can have, and a lookup that a derived column comes from is the
//! same in every source. Where hands are honest each table is the aggregate of the joined rows of all sources, and each dictionary is
//! that of these rows; by `segments_mean_rows` such a table means their aggregate in values. Nothing but [`Segment::rows_at`] shows a
//! row of a source, and each call of it is one step.
//!
//! The modules: `snap`: a source; `parts`: what a segment is made of; `segment`: the segment; `ready_set`: ready sets; `staying`: what stays in a swap;
//! `published`: ready sets as a row publishes them; `laws`: what the tables mean; `examples`: the
//! definitions at a few months and rows.
#![tactic(auto)]

mod examples;
mod laws;
mod parts;
mod published;
mod ready_set;
mod segment;
mod snap;
mod staying;

pub use examples::worked_examples;
pub use laws::segments_mean_rows;
pub use parts::SegmentParts;
pub use ready_set::ReadySet;
pub use segment::Segment;
pub use snap::Snap;
