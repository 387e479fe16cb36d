// The command `cuboids`.

ghost use Rattle.std.specs.Prelude.{◌≡◌, ◌≢◌, ◌⊎◌, ◌++◌, ◌∷◌, [], ℕ, List, IfOk, IsErrOf, Ok, Err, codes};
ghost use Rattle.cube_desc.specs.Cube.{Cube};
ghost use Rattle.cube_desc.specs.Meaning.{meaning};
ghost use Rattle.cuboid_lines.specs.Lines.{cuboids_text};
ghost use Rattle.cubes_plain.specs.Descriptors.{DescribedAt, MisdescribedAt, TellsDescribedAt, TellsMisdescribedAt, bad_descriptor_line, desc_kind_text, place_text};
ghost use Rattle.desc_checks.specs.declared.kind.DescFault.{DescFault};
ghost use Rattle.fault_lines.specs.Files.{TellsLongerAt, TellsNothingAt, most_bytes};
ghost use Rattle.fault_lines.specs.Lines.{Appends, AppendsAll, read_fault_line, too_large_line};
ghost use Rattle.outside.specs.Contents.{IsLongerAt, IsNotLongerAt};
ghost use Rattle.outside.specs.Counts.{Rose};
ghost use Rattle.outside.specs.Written.{AppendsPart};

use cube_desc::{DescFault, DescKind, DescRefusal, read_desc};
use cuboid_lines::cuboids_text;
use fault_lines::status::{BAD_DESCRIPTOR, DONE, MEMORY, READ_FAULT, TOO_LARGE, WRITE_FAULT};
use fault_lines::{MOST_BYTES, finish, refuse, refuse_too_large, refuse_unread};
use outside::{FileFault, Files, Sink};
use std::alloc::{AllocError, Global};

// Why there are no lines.
#[derive(Drop)]
enum Stop {
    Memory,
    ReadFault,
    TooLarge,
    BadDescriptor(DescFault),
}

// The text of `cuboids` over the bytes of a file.
fn text_of_bytes(alloc: Global, bytes: &[u8]) -> Result<Vec<u8>, Stop>
    ensures ok { IfOk result (λ text. (cube : Cube) × (meaning bytes.now ≡ Ok cube) × (text.items ≡ cuboids_text cube)) }
    ensures bad { (f : DescFault) → result ≡ Err (Stop.BadDescriptor f) → meaning bytes.now ≡ Err f }
    ensures read { result ≢ Err Stop.ReadFault }
    ensures large { result ≢ Err Stop.TooLarge }
{
    let desc = match read_desc(alloc, bytes) {
        Ok(desc) => desc,
        Err(DescRefusal::Fault(fault)) => return Err(Stop::BadDescriptor(fault)),
        Err(DescRefusal::Memory) => return Err(Stop::Memory),
    };
    match cuboids_text(alloc, &desc) {
        Ok(text) => Ok(text),
        Err(_) => Err(Stop::Memory),
    }
}

// The text of `cuboids` over the file at the path.
fn cuboids_output<F: Files>(alloc: Global, path: &str, files: &mut F) -> Result<Vec<u8>, Stop>
    ensures ok { IfOk result (λ text. (cube : Cube) × DescribedAt (F.contents files.old) path.now cube × (text.items ≡ cuboids_text cube)) }
    ensures read { IsErrOf result Stop.ReadFault → Rose (F.faults files.old) (F.faults files.new) }
    ensures read_not_longer { IsErrOf result Stop.ReadFault → IsNotLongerAt (F.contents files.old) path.now most_bytes }
    ensures large { IsErrOf result Stop.TooLarge → IsLongerAt (F.contents files.old) path.now most_bytes }
    ensures bad { (f : DescFault) → result ≡ Err (Stop.BadDescriptor f) → MisdescribedAt (F.contents files.old) path.now f }
    ensures contents { F.contents files.new ≡ F.contents files.old }
    ensures write_faults { F.write_faults files.new ≡ F.write_faults files.old }
{
    let bytes = match files.read(alloc, path, MOST_BYTES) {
        Ok(bytes) => bytes,
        Err(FileFault::Failed) => return Err(Stop::ReadFault),
        Err(FileFault::TooLong) => return Err(Stop::TooLarge),
        Err(FileFault::Memory) => return Err(Stop::Memory),
    };
    text_of_bytes(alloc, bytes.as_slice())
}

// The name of a kind in a fault line.
fn kind_text(kind: DescKind) -> &'static str
    ensures { result.now ≡ desc_kind_text kind }
{
    match kind {
        DescKind::NotJson => "NotJson",
        DescKind::Shape => "Shape",
        DescKind::TooMany => "TooMany",
        DescKind::BadName => "BadName",
        DescKind::Twice => "Twice",
        DescKind::BadType => "BadType",
        DescKind::NoTable => "NoTable",
        DescKind::NoColumn => "NoColumn",
        DescKind::BadJoin => "BadJoin",
        DescKind::BadPartition => "BadPartition",
        DescKind::BadDimension => "BadDimension",
        DescKind::BadMeasure => "BadMeasure",
        DescKind::BadRowkey => "BadRowkey",
        DescKind::BadGroup => "BadGroup",
        DescKind::TooManyCuboids => "TooManyCuboids",
    }
}

// A place in a fault line, and a dash for the empty one.
fn place_text(place: &[u8]) -> &[u8]
    ensures { result.now ≡ place_text place.now }
{
    match place {
        [] => b"-".as_slice(),
        [_, ..] => place,
    }
}

// The fault line of a descriptor.
fn descriptor_line(alloc: Global, fault: &DescFault) -> Result<Vec<u8>, AllocError>
    ensures { IfOk result (λ line. line.items ≡ bad_descriptor_line fault.now) }
{
    let mut line = Vec::from_slice(alloc, b"fault: BadDescriptor ".as_slice())?;
    line.extend_from_slice(kind_text(fault.kind).as_bytes())?;
    line.push(b' ')?;
    line.extend_from_slice(place_text(fault.place.bytes()))?;
    line.push(b'\n')?;
    Ok(line)
}

// Writes the fault line of a descriptor, and says the status.
fn refuse_descriptor<S: Sink>(alloc: Global, sink: &mut S, fault: &DescFault) -> u8
    ensures status { (result ≡ BAD_DESCRIPTOR) ⊎ (result ≡ MEMORY) }
    ensures line { result ≡ BAD_DESCRIPTOR → Appends (S.faults sink.old) (S.faults sink.new) (S.written sink.old) (S.written sink.new) (bad_descriptor_line fault.now) }
    ensures memory { result ≡ MEMORY → S.written sink.new ≡ S.written sink.old }
{
    match descriptor_line(alloc, fault) {
        Ok(line) => refuse(sink, line.as_slice(), BAD_DESCRIPTOR),
        Err(_) => MEMORY,
    }
}

/// Writes the lines of the cuboids of the descriptor at the path, and says the status. A fault is answered as every
/// command answers it; want of memory is free.
pub fn run_cuboids<F: Files, S: Sink>(alloc: Global, path: &str, files: &mut F, sink: &mut S) -> u8
    ensures status { (result ≡ DONE) ⊎ (result ≡ MEMORY) ⊎ (result ≡ READ_FAULT) ⊎ (result ≡ WRITE_FAULT) ⊎ (result ≡ BAD_DESCRIPTOR) ⊎ (result ≡ TOO_LARGE) }
    ensures done { result ≡ DONE → (cube : Cube) × DescribedAt (F.contents files.old) path.now cube × AppendsAll (S.written sink.old) (S.written sink.new) (cuboids_text cube) }
    ensures memory { result ≡ MEMORY → S.written sink.new ≡ S.written sink.old }
    ensures read_fault { result ≡ READ_FAULT → Rose (F.faults files.old) (F.faults files.new) }
    ensures read_fault_line { result ≡ READ_FAULT → Appends (S.faults sink.old) (S.faults sink.new) (S.written sink.old) (S.written sink.new) (read_fault_line path.now) }
    ensures nothing_there { TellsNothingAt (F.contents files.old) path.now → (result ≡ READ_FAULT) ⊎ (result ≡ MEMORY) }
    ensures write_fault { result ≡ WRITE_FAULT → Rose (S.faults sink.old) (S.faults sink.new) }
    ensures write_fault_part { result ≡ WRITE_FAULT → (cube : Cube) × DescribedAt (F.contents files.old) path.now cube × AppendsPart (S.written sink.old) (S.written sink.new) (cuboids_text cube) }
    ensures bad_descriptor { result ≡ BAD_DESCRIPTOR → (fault : DescFault) × MisdescribedAt (F.contents files.old) path.now fault
        × Appends (S.faults sink.old) (S.faults sink.new) (S.written sink.old) (S.written sink.new) (bad_descriptor_line fault) }
    ensures misdescribed { (fault : DescFault) → TellsMisdescribedAt (F.contents files.old) path.now fault → (result ≡ BAD_DESCRIPTOR) ⊎ (result ≡ READ_FAULT) ⊎ (result ≡ MEMORY) }
    ensures too_large { result ≡ TOO_LARGE → IsLongerAt (F.contents files.old) path.now most_bytes
        × Appends (S.faults sink.old) (S.faults sink.new) (S.written sink.old) (S.written sink.new) (too_large_line path.now) }
    ensures longer { TellsLongerAt (F.contents files.old) path.now → (result ≡ TOO_LARGE) ⊎ (result ≡ MEMORY) }
    ensures complete { (cube : Cube) → TellsDescribedAt (F.contents files.old) path.now cube
        → ¬ (Rose (F.faults files.old) (F.faults files.new)) → ¬ (Rose (S.faults sink.old) (S.faults sink.new)) → (result ≡ DONE) ⊎ (result ≡ MEMORY) }
    ensures contents { F.contents files.new ≡ F.contents files.old }
    ensures write_faults { F.write_faults files.new ≡ F.write_faults files.old }
{
    match cuboids_output(alloc, path, files) {
        Ok(text) => finish(sink, text.as_slice()),
        Err(Stop::Memory) => MEMORY,
        Err(Stop::ReadFault) => refuse_unread(alloc, sink, path),
        Err(Stop::TooLarge) => refuse_too_large(alloc, sink, path),
        Err(Stop::BadDescriptor(fault)) => refuse_descriptor(alloc, sink, &fault),
    }
}
