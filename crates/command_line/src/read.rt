// The order that words say.

ghost use Rattle.std.specs.Prelude.{◌≡◌, ◌↔◌, IfOk};
ghost use Rattle.clap.specs.Words.{subcommand_of, subcommand_rows_of};
ghost use Rattle.command_line.specs.Forms.{HasForm};
ghost use Rattle.command_line.specs.Values.{cubes};
ghost use Rattle.command_line.specs.Words.{AreLawful, Say, bytes_of_words, command_of};

use crate::form::{Form, form_of};
use crate::order::{Order, WordsRefusal};
use crate::values::{matches_of, number_of, owned, workers_of};
use clap::ArgMatches;
use std::alloc::{AllocError, Global};

// The order of the form that matches of the words say.
fn order_in(
    alloc: Global,
    form: Form,
    words: &[String],
    matches: &ArgMatches<'_>,
) -> Result<Order, AllocError>
    requires form { HasForm form (bytes_of_words words.now) }
    requires matches { subcommand_rows_of matches.now ≡ subcommand_of cubes (bytes_of_words words.now) }
    ensures { IfOk result (λ order. Say (bytes_of_words words.now) (command_of order)) }
{
    let _words = words;
    match form {
        Form::Run => Ok(Order::Run {
            path: owned(alloc, matches, "path")?,
            workers: workers_of(matches),
        }),
        Form::Demo => Ok(Order::Demo {
            number: number_of(matches, "number", 9),
            rows: number_of(matches, "rows", 6),
        }),
        Form::Fold => Ok(Order::Fold(owned(alloc, matches, "path")?)),
        Form::Cuboids => Ok(Order::Cuboids(owned(alloc, matches, "path")?)),
        Form::Step => Ok(Order::Step {
            task: owned(alloc, matches, "task")?,
            product: owned(alloc, matches, "product")?,
            stop: owned(alloc, matches, "stop")?,
        }),
    }
}

// The order that words of the form say.
fn order_of(alloc: Global, form: Form, words: &[String]) -> Result<Order, AllocError>
    requires { HasForm form (bytes_of_words words.now) }
    ensures { IfOk result (λ order. Say (bytes_of_words words.now) (command_of order)) }
{
    match matches_of(alloc, words) {
        Ok(matches) => order_in(alloc, form, words, &matches),
        Err(_) => Err(AllocError),
    }
}

/// The order that the words say; they don't hold the program's own name.
pub fn read_words(alloc: Global, words: &[String]) -> Result<Order, WordsRefusal>
    ensures ok { IfOk result (λ order. Say (bytes_of_words words.now) (command_of order)) }
    ensures bad_words { (result ≡ Err WordsRefusal.BadWords) ↔ (AreLawful (bytes_of_words words.now) → ⊥) }
{
    let Some(form) = form_of(words) else {
        return Err(WordsRefusal::BadWords);
    };
    match order_of(alloc, form, words) {
        Ok(order) => Ok(order),
        Err(_) => Err(WordsRefusal::Memory),
    }
}
