// The form of the words, which is checked before they are read.

ghost use Rattle.std.specs.Prelude.{◌≡◌, ◌≤◌, ◌∷◌, [], ℕ, List, codes, IfNone, IfSome, IsTrue, ◌↔◌};
ghost use Rattle.command_line.specs.Forms.{HasForm};
ghost use Rattle.command_line.specs.Words.{Command, IsPath, IsRows, IsWorkers, Say, Writes, bytes_of_words, run};
ghost use Rattle.command_line.specs.declared.form.Form.TheVariants as form;

use cube_val::ROW_LIMIT;

/// The form of the words, one for each command.
#[derive(Clone, Copy)]
pub enum Form {
    Run,
    Demo,
    Fold,
    Cuboids,
    Step,
}

// Two words as texts.
fn two(words: &[String]) -> Option<(&str, &str)>
    ensures some { IfSome result (λ t. bytes_of_words words.now ≡ t.0.now ∷ t.1.now ∷ []) }
    ensures none { IfNone result ((a b : List ℕ) → bytes_of_words words.now ≡ a ∷ b ∷ [] → ⊥) }
{
    let [a, b] = words else {
        return None;
    };
    Some((a.as_str(), b.as_str()))
}

// Three words as texts.
fn three(words: &[String]) -> Option<(&str, &str, &str)>
    ensures some { IfSome result (λ t. bytes_of_words words.now ≡ t.0.now ∷ t.1.now ∷ t.2.now ∷ []) }
    ensures none { IfNone result ((a b d : List ℕ) → bytes_of_words words.now ≡ a ∷ b ∷ d ∷ [] → ⊥) }
{
    let [a, b, d] = words else {
        return None;
    };
    Some((a.as_str(), b.as_str(), d.as_str()))
}

// Four words as texts.
fn four(words: &[String]) -> Option<(&str, &str, &str, &str)>
    ensures some { IfSome result (λ t. bytes_of_words words.now ≡ t.0.now ∷ t.1.now ∷ t.2.now ∷ t.3.now ∷ []) }
    ensures none { IfNone result ((a b d e : List ℕ) → bytes_of_words words.now ≡ a ∷ b ∷ d ∷ e ∷ [] → ⊥) }
{
    let [a, b, d, e] = words else {
        return None;
    };
    Some((a.as_str(), b.as_str(), d.as_str(), e.as_str()))
}

// Whether a word is a path: it is not empty and does not begin with `-`.
fn is_path(word: &str) -> bool
    ensures { IsTrue result ↔ IsPath word.now }
{
    match word.as_bytes() {
        [] => false,
        [first, ..] => *first != b'-',
    }
}

// Whether a byte is one of the digits 1 to 8.
fn is_one_to_eight(byte: u8) -> bool
    ensures { IsTrue result ↔ ((49 ≤ byte) × (byte ≤ 56)) }
{
    b'1' <= byte && byte <= b'8'
}

// Whether a word gives a number of workers.
fn is_workers(word: &str) -> bool
    ensures { IsTrue result ↔ ((n : ℕ) × IsWorkers word.now n) }
{
    match word.as_bytes() {
        [] => false,
        [front @ .., digit] => front == b"--workers=".as_slice() && is_one_to_eight(*digit),
    }
}

/// The number that a word is, of at most `most` digits.
pub fn number(word: &str, most: usize) -> Option<u32>
    requires { most ≤ 9 }
    ensures some { IfSome result (λ n. Writes most word.now n) }
    ensures none { IfNone result ((n : ℕ) → Writes most word.now n → ⊥) }
{
    if word.len() > most || word.starts_with('+') {
        return None;
    }
    word.parse::<u32>().ok()
}

// Whether a word is the number of a demonstration.
fn is_number(word: &str) -> bool
    ensures { IsTrue result ↔ ((n : ℕ) × Writes 9 word.now n) }
{
    number(word, 9).is_some()
}

// Whether a word is a number of rows.
fn is_rows(word: &str) -> bool
    ensures { IsTrue result ↔ ((rows : ℕ) × IsRows word.now rows) }
{
    match number(word, 6) {
        Some(rows) => 1 <= rows && rows <= ROW_LIMIT,
        None => false,
    }
}

// Whether the words are the command and a path.
fn is_on_path(words: &[String], command: &str) -> bool
    ensures yes { IsTrue result → (path : List ℕ) × (bytes_of_words words.now ≡ command.now ∷ path ∷ []) × IsPath path }
    ensures no { (path : List ℕ) → bytes_of_words words.now ≡ command.now ∷ path ∷ [] → IsPath path → IsTrue result }
{
    match two(words) {
        Some((first, path)) => first == command && is_path(path),
        None => false,
    }
}

// Whether the words are `run` with a path and then a number of workers.
fn is_path_first(words: &[String]) -> bool
    ensures yes { IsTrue result → (path : List ℕ) × (n : ℕ) × Say (bytes_of_words words.now) (run path (Some n)) }
    ensures no { (path : List ℕ) (w : List ℕ) (n : ℕ) → bytes_of_words words.now ≡ codes "run" ∷ path ∷ w ∷ [] → IsPath path → IsWorkers w n → IsTrue result }
{
    match three(words) {
        Some(("run", path, workers)) => is_path(path) && is_workers(workers),
        _ => false,
    }
}

// Whether the words are `run` with a number of workers and then a path.
fn is_path_last(words: &[String]) -> bool
    ensures yes { IsTrue result → (path : List ℕ) × (n : ℕ) × Say (bytes_of_words words.now) (run path (Some n)) }
    ensures no { (path : List ℕ) (w : List ℕ) (n : ℕ) → bytes_of_words words.now ≡ codes "run" ∷ w ∷ path ∷ [] → IsPath path → IsWorkers w n → IsTrue result }
{
    match three(words) {
        Some(("run", workers, path)) => is_path(path) && is_workers(workers),
        _ => false,
    }
}

// Whether the words are `demo`, a number, and a number of rows.
fn is_demo(words: &[String]) -> bool
    ensures { IsTrue result ↔ HasForm form.Demo (bytes_of_words words.now) }
{
    match three(words) {
        Some(("demo", word, rows)) => is_number(word) && is_rows(rows),
        _ => false,
    }
}

// Whether the words are `step` and three paths.
fn is_step(words: &[String]) -> bool
    ensures { IsTrue result ↔ HasForm form.Step (bytes_of_words words.now) }
{
    match four(words) {
        Some((command, task, product, stop)) => command == "step"
            && is_path(task)
            && is_path(product)
            && is_path(stop),
        None => false,
    }
}

/// The form of the words, or none where they say no command.
pub fn form_of(words: &[String]) -> Option<Form>
    ensures some { IfSome result (λ f. HasForm f (bytes_of_words words.now)) }
    ensures none { IfNone result ((command : Command) → Say (bytes_of_words words.now) command → ⊥) }
{
    if is_on_path(words, "run") || is_path_first(words) || is_path_last(words) {
        return Some(Form::Run);
    }
    if is_demo(words) {
        return Some(Form::Demo);
    }
    if is_on_path(words, "fold") {
        return Some(Form::Fold);
    }
    if is_on_path(words, "cuboids") {
        return Some(Form::Cuboids);
    }
    if is_step(words) {
        return Some(Form::Step);
    }
    None
}
