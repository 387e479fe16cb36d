// The records of a file, one after another.

ghost use Rattle.std.specs.Prelude.{true, false, ◌≡◌, ◌++◌, ◌∷◌, [], ℕ, List, slice_index_or};
ghost use Rattle.csv.specs.Records.{fields_of};
ghost use Rattle.table_reader.specs.Reads.{HasRead};
ghost use Rattle.table_reader.specs.Records.{HasRecords};

use csv::{ByteRecord, Reader, ReaderBuilder};
use std::alloc::{AllocError, Global};

/// A reader of the records of the bytes.
pub fn reader_of<'a>(alloc: Global, bytes: &'a [u8]) -> Reader<&'a [u8]>
    ensures { HasRead bytes.now [] result }
{
    ReaderBuilder::new()
        .has_headers(false)
        .flexible(true)
        .from_reader(alloc, bytes)
}

/// Reads the next record, if there is one. A failed read of bytes in memory is answered as want of memory.
pub fn read_next(reader: &mut Reader<&[u8]>, found: &mut ByteRecord) -> Result<bool, AllocError>
    ensures more { result ≡ Ok true → (bytes : List ℕ) (records : List (List (List ℕ))) → HasRead bytes records reader.old
        → HasRead bytes (records ++ fields_of found.new ∷ []) reader.new }
    ensures last { result ≡ Ok false → (bytes : List ℕ) (records : List (List (List ℕ))) → HasRead bytes records reader.old
        → HasRecords bytes records }
{
    let Ok(more) = reader.read_byte_record(found) else {
        return Err(AllocError);
    };
    Ok(more)
}

/// The field at a place, which is empty where the record has none there.
pub fn field_at(found: &ByteRecord, place: usize) -> &[u8]
    ensures { result.now ≡ slice_index_or (fields_of found.now) place [] }
{
    match found.get(place) {
        Some(field) => field,
        None => b"",
    }
}
