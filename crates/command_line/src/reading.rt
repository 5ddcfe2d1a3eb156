ghost use Rattle.std.specs.Prelude.{◌≡◌, ◌↔◌, Err, IfOk, IfErr, map, string_bytes};
ghost use Rattle.command_line.specs.PlainLine.{IsPlainLine, AreRefused, HasOneCommand};
ghost use Rattle.command_line.specs.inside.Forms.{HasForm};

use crate::command::{Command, WordFault};
use crate::form::{Form, form_of};
use crate::taking::{command_of, matches_of, values_of};
use std::alloc::Global;

/// The command of a plain line. The words are those behind the program's name.
pub fn read_words(alloc: Global, words: &[String]) -> Result<Command, WordFault>
    ensures plain { IfOk result (λ command. IsPlainLine (map string_bytes words.now) command) }
    ensures refused { (result ≡ Err WordFault.Words) ↔ AreRefused (map string_bytes words.now) }
{
    match form_of(words) {
        Some(form) => read_line(alloc, words, form),
        None => Err(WordFault::Words),
    }
}

/// The command of a plain line of this form.
fn read_line(alloc: Global, words: &[String], form: Form) -> Result<Command, WordFault>
    requires { HasForm form (map string_bytes words.now) }
    ensures plain { IfOk result (λ command. IsPlainLine (map string_bytes words.now) command) }
    ensures memory { IfErr result (λ fault. fault ≡ WordFault.Memory) }
{
    let matches = matches_of(alloc, words)?;
    let command = command_of(alloc, form, values_of(&matches))?;
    Ok(command)
}

/// A line has one command. It does nothing when it runs.
pub fn line_laws()
    ensures { HasOneCommand }
{}
