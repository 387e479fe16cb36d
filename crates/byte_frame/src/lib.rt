//! Fields of bytes: how a format of bytes is read, written and proved.
//!
//! Step files, frames and the log of a catalog are formats of bytes. Each is put together from the fields
//! and the ways to join them that this crate has; it stands on no other crate of the engine, and its names
//! stand in no format. Numbers are big endian, signed ones two's complement.
//!
//! # Frames
//!
//! A frame is the eight bytes `CUBEFRM1`, a u16 version, the 32 bytes of a task's digest, a u64 length, so many bytes
//! of a body, and the SHA-256 of all before it; nothing follows. It has 82 bytes more than its body. What a body says,
//! and which versions and digests may stand in a frame, is for the formats above to say. [`put_frame`] writes exactly
//! the frame of a head and a body, and [`take_frame`] finds exactly the head and the body of bytes that are a frame and
//! answers [`Torn`] for all others; it takes no memory.
//!
//! # How a format is put together
//!
//! Say that an entry is a u16 number and a list of u32 sizes, each at most a limit, and that the sizes rise.
//!
//! 1. **What is written**, in `specs/` of the format's crate, for a reader to believe:
//!
//!    ```text
//!    entry_text e = to_be_bytes w16 e.number ++ list_text (to_be_bytes w32) e.sizes
//!    EntryFits limit e = (e.number < 2 ^ 16) × (((length e.sizes ≤ 9) × AllByRecursion (λ n. (n < 2 ^ 32) × ..) e.sizes) × (rises nat_lt e.sizes ≡ true))
//!    ```
//!
//! 2. **The reader**, a function on lists of bytes, by `then_at`, `as_at`, `if_at`, `items_at`, `each_at`,
//!    `list_at`, `counted_at`, `sized_at`, `tagged_at` and `case_at`. A condition on what was read is a test,
//!    made after the reading (`if_at`). What depends on an earlier field is the second argument of `then_at`:
//!
//!    ```text
//!    size_at limit = if_at (λ n. nat_le n limit) (number_at w32)
//!    entry_at limit = as_at entry_of (then_at (number_at w16) (λ _. if_at (rises nat_lt) (list_at 9 (size_at limit))))
//!    ```
//!
//! 3. **The law that ties them**, one term of the same shape, from the lemmas of `proofs/Exact.antt`:
//!    `exact_as .. (exact_then .. (exact_number ..) (λ _ _. exact_if .. (exact_list .. (exact_if .. (exact_number ..)))))`
//!    proves `Exact entry_text (EntryFits limit) (entry_at limit)`: what is read was written so and fits, and
//!    what fits is read again, whatever follows. `all_found` and `all_again` say the same of whole files.
//!
//! 4. **The code**: [`FieldReader`] takes the fields in order, [`read_list`] and its kin take the lists, by a
//!    context that implements [`Reads`], and [`rise`] tests what has to rise. Each such function's clause
//!    is one line, `Gives view result (entry_at limit r.old)`, and mostly needs no proof by hand.
//!
//! 5. **The writer**: `put_` calls in the same order, each of which adds its field's bytes at the end.
//!
//! # Modules
//!
//! - `fields`: the reader of fields. It takes no memory.
//! - `put`: the writers of fields.
//! - `lists`: lists of items, by their contexts.
//! - `rising`: the test that a list rises strictly.
//! - `fault`: why bytes gave no value.
//! - `frames`: frames written and read.
//! - `laws` and `examples`: what holds of all fields and frames, the readers at short bytes, and a frame byte by byte.
#![tactic(auto)]

mod examples;
mod fault;
mod fields;
mod frames;
mod laws;
mod lists;
mod put;
mod rising;

pub use examples::{worked_examples, worked_frames};
pub use fault::ReadError;
pub use fields::FieldReader;
pub use frames::{FrameHead, Torn, put_frame, take_frame};
pub use laws::{fields_are_exact, frames_are_exact};
pub use lists::{Reads, read_counted, read_each, read_items, read_list};
pub use put::{put_bytes, put_i64, put_i128, put_u8, put_u16, put_u32, put_u64};
pub use rising::{Below, rise};
