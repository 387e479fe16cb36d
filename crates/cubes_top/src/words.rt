// The words of a run on one hand.

ghost use Rattle.std.specs.Prelude.{◌≡◌, IfNone, IfOk, IfSome};
ghost use Rattle.std.specs.String.{string_bytes};
ghost use Rattle.cubes_top.specs.Words.{IsNoRun, IsRunOf};

use command_line::{Order, WordsRefusal, read_words};
use std::alloc::{AllocError, Global};

/// The path of the script, where the words are a run on one hand. Without a number of workers there is one for each hand.
pub fn script_path(alloc: Global, words: &[String]) -> Result<Option<String>, AllocError>
    ensures some { IfOk result (λ found. IfSome found (λ path. IsRunOf words.now (string_bytes path))) }
    ensures none { IfOk result (λ found. IfNone found (IsNoRun words.now)) }
{
    match read_words(alloc, words) {
        Ok(Order::Run { path, workers }) => match workers {
            None => Ok(Some(path)),
            Some(1) => Ok(Some(path)),
            Some(_) => Ok(None),
        },
        Ok(Order::Demo { .. }) => Ok(None),
        Ok(Order::Fold(_)) => Ok(None),
        Ok(Order::Cuboids(_)) => Ok(None),
        Ok(Order::Step { .. }) => Ok(None),
        Err(WordsRefusal::BadWords) => Ok(None),
        Err(WordsRefusal::Memory) => Err(AllocError),
    }
}
