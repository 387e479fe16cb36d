// Tests of keys at eight places at once.

ghost use Rattle.std.specs.Prelude.{◌≡◌, ◌<◌, ◌≤◌, ◌+◌, ◌^◌, All, OnOk, length, nat_eq, nat_lt, slice_index, vec_len};
ghost use Rattle.std.specs.Int.{bit_at};
ghost use Rattle.cell_store.specs.Columns.{key_at, lists_of};
ghost use Rattle.cell_store.specs.Lanes.{AreLanes, passing_below};
ghost use Rattle.cell_store.specs.Selects.{in_spans, is_in, passes};

use crate::select::{IdSpan, IdTest};
use std::alloc::AllocError;
use std::simd::u32x8;

// The lanes of the ids below a limit.
fn lanes_below(ids: &[u32], at: usize, limit: u32) -> u64
    requires { at + 8 ≤ length ids.now }
    ensures { AreLanes (λ place. nat_lt (slice_index ids.now place) limit) at result }
{
    let lanes = u32x8::from_slice(&ids[at..]);
    lanes.simd_lt(u32x8::splat(limit)).to_bitmask()
}

// The lanes of the ids in a span.
fn lanes_in_span(ids: &[u32], at: usize, span: IdSpan) -> u64
    requires { at + 8 ≤ length ids.now }
    ensures { AreLanes (λ place. is_in (slice_index ids.now place) span) at result }
{
    lanes_below(ids, at, span.to) & !lanes_below(ids, at, span.from)
}

// The lanes of the ids in one of the spans.
fn lanes_in_spans(ids: &[u32], at: usize, spans: &[IdSpan]) -> u64
    requires { at + 8 ≤ length ids.now }
    ensures { AreLanes (λ place. in_spans spans.now (slice_index ids.now place)) at result }
{
    let mut lanes = 0;
    for span in spans {
        lanes |= lanes_in_span(ids, at, *span);
    }
    lanes
}

// The lanes of the keys that pass the tests.
fn lanes_passing(columns: &[Vec<u32>], tests: &[IdTest], at: usize) -> u64
    requires in_range { All (λ column. at + 8 ≤ vec_len column) columns.now }
    requires columns { All (λ test. test.column < length columns.now) tests.now }
    ensures { AreLanes (λ place. passes tests.now (key_at (lists_of columns.now) place)) at result }
{
    let mut lanes = 255;
    for test in tests {
        lanes &= lanes_in_spans(columns[test.column].as_slice(), at, test.spans.as_slice());
    }
    lanes
}

// Whether the lane's bit is 1.
fn is_set(lanes: u64, lane: usize) -> bool
    requires { lane < 64 }
    ensures { result ≡ nat_eq (bit_at lanes lane) 1 }
{
    (lanes >> lane) % 2 == 1
}

/// Adds those of the eight places from `at` on at which the keys pass the tests, to those below `at`.
pub(crate) fn add_lanes(
    places: &mut Vec<usize>,
    columns: &[Vec<u32>],
    tests: &[IdTest],
    at: usize,
) -> Result<(), AllocError>
    requires range { at + 8 < 2 ^ 64 }
    requires in_range { All (λ column. at + 8 ≤ vec_len column) columns.now }
    requires columns { All (λ test. test.column < length columns.now) tests.now }
    requires places { places.old.items ≡ passing_below tests.now (lists_of columns.now) at }
    ensures { OnOk result (places.new.items ≡ passing_below tests.now (lists_of columns.now) (at + 8)) }
{
    let lanes = lanes_passing(columns, tests, at);
    if lanes == 0 {
        return Ok(());
    }
    for lane in 0..8 {
        if is_set(lanes, lane) {
            places.push(at + lane)?;
        }
    }
    Ok(())
}
