// The files of tasks and of products.

ghost use Rattle.std.specs.Prelude.{◌≡◌, ◌<◌, ◌^◌, IfOk, Err, bytes_eq, length, option_map};
ghost use Rattle.byte_frame.specs.Outcomes.{Gives};
ghost use Rattle.byte_frame.specs.Frames.{frame_of};
ghost use Rattle.step_files.specs.Files.{IsProductFile, IsTaskFile, body_in, body_of, digest_of, file_of, product_in, task_at, task_text};
ghost use Rattle.step_files.specs.Products.{IsShortProduct};
ghost use Rattle.step_files.specs.Tasks.{FitsTask};

use crate::checking::read_product_body;
use crate::fault::{ProductRefusal, TaskRefusal};
use crate::product::Product;
use crate::reading::read_body;
use crate::task::Task;
use crate::writing::{product_body, task_body};
use byte_frame::{FrameHead, ReadError, put_frame, take_frame};
use sha2::{Digest, Sha256};
use std::alloc::{AllocError, Global};

/// The file of a task.
pub fn task_text(alloc: Global, task: &Task) -> Result<Vec<u8>, AllocError>
    requires { FitsTask task.now }
    ensures { IfOk result (λ v. v.items ≡ task_text task.now) }
{
    let body = task_body(alloc, task)?;
    let head = FrameHead {
        version: 1,
        task: [0; 32],
    };
    put_frame(alloc, &head, body.as_slice())
}

/// The file of a product of the task whose file has the digest.
pub fn product_file(
    alloc: Global,
    digest: &[u8; 32],
    product: &Product,
) -> Result<Vec<u8>, AllocError>
    requires { IsShortProduct product.now }
    ensures { IfOk result (λ v. v.items ≡ file_of digest.now product.now) }
{
    let body = product_body(alloc, product)?;
    let head = FrameHead {
        version: 1,
        task: *digest,
    };
    put_frame(alloc, &head, body.as_slice())
}

// The body of a frame, where its version is 1 and it has this digest.
fn body_with<'a>(head: FrameHead, body: &'a [u8], digest: &[u8]) -> Option<&'a [u8]>
    ensures { option_map (λ body. body.now) result ≡ body_in digest.now (frame_of head body.now) }
{
    if head.version != 1 {
        return None;
    }
    if !same_bytes(&head.task, digest) {
        return None;
    }
    Some(body)
}

// The body of the frame of version 1 with this digest that the bytes are.
fn take_body<'a>(bytes: &'a [u8], digest: &[u8]) -> Option<&'a [u8]>
    ensures { option_map (λ body. body.now) result ≡ body_of digest.now bytes.now }
{
    match take_frame(bytes) {
        Ok(taken) => body_with(taken.0, taken.1, digest),
        Err(_) => None,
    }
}

fn same_bytes(a: &[u8], b: &[u8]) -> bool
    ensures { result ≡ bytes_eq a.now b.now }
{
    a == b
}

// The task that all of the bytes are.
#[tactic(auto, unfolding(crate::specs::Files::task_at))]
fn task_in(alloc: Global, bytes: &[u8]) -> Result<Task, ReadError>
    ensures { Gives (λ task. task) result (task_at bytes.now) }
{
    match take_body(bytes, &[0; 32]) {
        Some(body) => read_body(alloc, body),
        None => Err(ReadError::Malformed),
    }
}

// No slice is longer.
fn short(bytes: &[u8]) -> usize
    ensures { length bytes.now < 2 ^ 64 }
{
    bytes.len()
}

/// The task that all of the bytes are; `BadTask` exactly where they are the file of no valid task.
pub fn read_task(alloc: Global, bytes: &[u8]) -> Result<Task, TaskRefusal>
    ensures found { IfOk result (IsTaskFile bytes.now) }
    ensures bad { result ≡ Err TaskRefusal.BadTask → (t : Task) → ¬ (IsTaskFile bytes.now t) }
{
    short(bytes);
    match task_in(alloc, bytes) {
        Ok(task) => Ok(task),
        Err(ReadError::Malformed) => Err(TaskRefusal::BadTask),
        Err(ReadError::Memory) => Err(TaskRefusal::Memory),
    }
}

// The product of the task that all of the bytes are.
#[tactic(auto, unfolding(crate::specs::Files::product_in))]
fn product_in(
    alloc: Global,
    task: &Task,
    digest: &[u8; 32],
    bytes: &[u8],
) -> Result<Product, ReadError>
    requires { FitsTask task.now }
    ensures { Gives (λ p. p) result (product_in task.now digest.now bytes.now) }
{
    match take_body(bytes, digest) {
        Some(body) => read_product_body(alloc, task, body),
        None => Err(ReadError::Malformed),
    }
}

/// The product of the task that all of the bytes are; `Damaged` exactly where they are the file of none. The digest is that
/// of the task's file.
pub fn read_product_with(
    alloc: Global,
    task: &Task,
    digest: &[u8; 32],
    bytes: &[u8],
) -> Result<Product, ProductRefusal>
    requires task { FitsTask task.now }
    requires digest { digest.now ≡ digest_of task.now }
    ensures found { IfOk result (IsProductFile task.now bytes.now) }
    ensures damaged { result ≡ Err ProductRefusal.Damaged → (p : Product) → ¬ (IsProductFile task.now bytes.now p) }
{
    short(bytes);
    match product_in(alloc, task, digest, bytes) {
        Ok(product) => Ok(product),
        Err(ReadError::Malformed) => Err(ProductRefusal::Damaged),
        Err(ReadError::Memory) => Err(ProductRefusal::Memory),
    }
}

// The digest of a task's file.
fn digest_of(alloc: Global, task: &Task) -> Result<[u8; 32], AllocError>
    requires { FitsTask task.now }
    ensures { IfOk result (λ digest. digest ≡ digest_of task.now) }
{
    let text = task_text(alloc, task)?;
    let digest: [u8; 32] = Sha256::digest(text.as_slice());
    Ok(digest)
}

/// The product of the task that all of the bytes are; `Damaged` exactly where they are the file of none.
pub fn read_product(alloc: Global, task: &Task, bytes: &[u8]) -> Result<Product, ProductRefusal>
    requires { FitsTask task.now }
    ensures found { IfOk result (IsProductFile task.now bytes.now) }
    ensures damaged { result ≡ Err ProductRefusal.Damaged → (p : Product) → ¬ (IsProductFile task.now bytes.now p) }
{
    match digest_of(alloc, task) {
        Ok(digest) => read_product_with(alloc, task, &digest, bytes),
        Err(_) => Err(ProductRefusal::Memory),
    }
}
