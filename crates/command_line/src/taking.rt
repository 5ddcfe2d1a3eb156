ghost use Rattle.std.specs.Prelude.{◌≡◌, false, Some, IsSome, IfOk, IfErr, map, string_bytes, codes, option_map};
ghost use Rattle.clap.specs.Simple.{app_of, new_app, new_rule, with_rule, subcommand_of, subcommand_rows_of};
ghost use Rattle.clap.specs.Walk.{rows_of};
ghost use Rattle.clap.specs.Matches.{found_of};
ghost use Rattle.clap.specs.Values.{kind_of};
ghost use Rattle.clap.specs.declared.builder.command.Command.TheViews.{out-Command as fields_of};
ghost use Rattle.command_line.specs.inside.Taking.{option_rule, flag_rule, program, with_verb, first_app, line_app, IsParserOf};
ghost use Rattle.command_line.specs.inside.Taking.{solve_verb, check_verb, replay_verb, show_verb, make_verb, root_verb};
ghost use Rattle.command_line.specs.inside.Taking.{replan_verb, recheck_verb};
ghost use Rattle.command_line.specs.inside.Forms.{IsPlain};
ghost use Rattle.command_line.specs.inside.Taking.{text_in, number_in, flag_in, command_in};

use crate::MOST_NUMBER;
use crate::command::{Ask, Command, FileName, WordFault};
use crate::form::Form;
use clap::error::ErrorKind;
use clap::{Arg, ArgAction, ArgMatches};
use line_text::read_decimal;
use std::alloc::{AllocError, Global};

/// Reads command lines.
type Parser<'a> = clap::Command<'a>;

/// The verb of this name, so far with no values.
fn verb<'a>(alloc: Global, name: &'a str) -> Parser<'a>
    ensures { IsParserOf (new_app name.entry.now) result }
{
    clap::Command::new(alloc, name)
}

/// The verb with one more value, which stands at the next place.
fn with_place<'a>(alloc: Global, verb: Parser<'a>, name: &'a str) -> Result<Parser<'a>, AllocError>
    requires { (fields_of verb).has_globals ≡ false }
    ensures { IfOk result (IsParserOf (with_rule (app_of verb.entry) (new_rule name.entry.now))) }
{
    verb.arg(Arg::new(alloc, name))
}

/// The verb with one more option, whose value stands behind its word.
fn with_option<'a>(alloc: Global, verb: Parser<'a>, name: &'a str) -> Result<Parser<'a>, AllocError>
    requires { (fields_of verb).has_globals ≡ false }
    ensures { IfOk result (IsParserOf (with_rule (app_of verb.entry) (option_rule name.entry.now))) }
{
    verb.arg(Arg::new(alloc, name).long(name))
}

/// The verb with one more flag, whose word says it all.
fn with_flag<'a>(alloc: Global, verb: Parser<'a>, name: &'a str) -> Result<Parser<'a>, AllocError>
    requires { (fields_of verb).has_globals ≡ false }
    ensures { IfOk result (IsParserOf (with_rule (app_of verb.entry) (flag_rule name.entry.now))) }
{
    verb.arg(Arg::new(alloc, name).long(name).action(ArgAction::SetTrue))
}

#[tactic(auto, unfolding(crate::specs::inside::Taking::solve_verb))]
fn solve_verb<'a>(alloc: Global) -> Result<Parser<'a>, AllocError>
    ensures { IfOk result (IsParserOf solve_verb) }
{
    let verb = with_place(alloc, verb(alloc, "solve"), "plant")?;
    let verb = with_option(alloc, verb, "slots")?;
    let verb = with_option(alloc, verb, "nodes")?;
    with_option(alloc, verb, "workers")
}

#[tactic(auto, unfolding(crate::specs::inside::Taking::check_verb))]
fn check_verb<'a>(alloc: Global) -> Result<Parser<'a>, AllocError>
    ensures { IfOk result (IsParserOf check_verb) }
{
    let verb = with_place(alloc, verb(alloc, "check"), "plant")?;
    with_place(alloc, verb, "dossier")
}

#[tactic(auto, unfolding(crate::specs::inside::Taking::replay_verb))]
fn replay_verb<'a>(alloc: Global) -> Result<Parser<'a>, AllocError>
    ensures { IfOk result (IsParserOf replay_verb) }
{
    let verb = with_place(alloc, verb(alloc, "replay"), "plant")?;
    with_place(alloc, verb, "plan")
}

#[tactic(auto, unfolding(crate::specs::inside::Taking::show_verb))]
fn show_verb<'a>(alloc: Global) -> Result<Parser<'a>, AllocError>
    ensures { IfOk result (IsParserOf show_verb) }
{
    with_place(alloc, verb(alloc, "show"), "plant")
}

#[tactic(auto, unfolding(crate::specs::inside::Taking::make_verb))]
fn make_verb<'a>(alloc: Global) -> Result<Parser<'a>, AllocError>
    ensures { IfOk result (IsParserOf make_verb) }
{
    let verb = with_place(alloc, verb(alloc, "make"), "number")?;
    with_flag(alloc, verb, "solve")
}

#[tactic(auto, unfolding(crate::specs::inside::Taking::root_verb))]
fn root_verb<'a>(alloc: Global) -> Result<Parser<'a>, AllocError>
    ensures { IfOk result (IsParserOf root_verb) }
{
    let verb = with_place(alloc, verb(alloc, "root"), "plant")?;
    with_option(alloc, verb, "slots")
}

#[tactic(auto, unfolding(crate::specs::inside::Taking::replan_verb))]
fn replan_verb<'a>(alloc: Global) -> Result<Parser<'a>, AllocError>
    ensures { IfOk result (IsParserOf replan_verb) }
{
    let verb = with_place(alloc, verb(alloc, "replan"), "plant")?;
    let verb = with_place(alloc, verb, "plan")?;
    let verb = with_option(alloc, verb, "at")?;
    let verb = with_option(alloc, verb, "slots")?;
    with_option(alloc, verb, "nodes")
}

#[tactic(auto, unfolding(crate::specs::inside::Taking::recheck_verb))]
fn recheck_verb<'a>(alloc: Global) -> Result<Parser<'a>, AllocError>
    ensures { IfOk result (IsParserOf recheck_verb) }
{
    let verb = with_place(alloc, verb(alloc, "recheck"), "plant")?;
    let verb = with_place(alloc, verb, "plan")?;
    let verb = with_place(alloc, verb, "dossier")?;
    with_option(alloc, verb, "at")
}

/// The program without a verb. It reads the words behind its name.
fn program<'a>(alloc: Global) -> Parser<'a>
    ensures { IsParserOf program result }
{
    clap::Command::new(alloc, "crudeplan").no_binary_name(true)
}

/// The program with one more verb.
fn with_verb<'a>(program: Parser<'a>, verb: Parser<'a>) -> Result<Parser<'a>, AllocError>
    requires program_plain { (fields_of program).has_globals ≡ false }
    requires verb_plain { (fields_of verb).has_globals ≡ false }
    ensures { IfOk result (IsParserOf (with_verb (app_of program.entry) (app_of verb.entry))) }
{
    program.subcommand(verb)
}

/// The program with the verbs of a plan of the plant, and of the plant itself.
fn first_parser<'a>(alloc: Global) -> Result<Parser<'a>, AllocError>
    ensures { IfOk result (IsParserOf first_app) }
{
    let parser = with_verb(program(alloc), solve_verb(alloc)?)?;
    let parser = with_verb(parser, check_verb(alloc)?)?;
    let parser = with_verb(parser, replay_verb(alloc)?)?;
    with_verb(parser, show_verb(alloc)?)
}

/// The program with all its verbs.
#[tactic(auto, unfolding(crate::specs::inside::Taking::line_app))]
fn line_parser<'a>(alloc: Global) -> Result<Parser<'a>, AllocError>
    ensures { IfOk result (IsParserOf line_app) }
{
    let parser = with_verb(first_parser(alloc)?, make_verb(alloc)?)?;
    let parser = with_verb(parser, root_verb(alloc)?)?;
    let parser = with_verb(parser, replan_verb(alloc)?)?;
    with_verb(parser, recheck_verb(alloc)?)
}

/// What the program finds in the words.
fn parsed<'a>(alloc: Global, words: &'a [String]) -> Result<ArgMatches<'a>, clap::Error>
    ensures found { IfOk result (λ found.
        subcommand_rows_of found ≡ subcommand_of line_app (map string_bytes words.entry.now)) }
    // It refuses no plain line but for want of memory.
    ensures refused { IsPlain (map string_bytes words.entry.now) → IfErr result (λ e. kind_of e ≡ ErrorKind.OutOfMemory) }
{
    let parser = line_parser(alloc)?;
    parser.try_get_matches_from(words)
}

/// The same, with want of memory as this crate's own fault.
pub fn matches_of<'a>(alloc: Global, words: &'a [String]) -> Result<ArgMatches<'a>, WordFault>
    requires { IsPlain (map string_bytes words.now) }
    ensures found { IfOk result (λ found.
        subcommand_rows_of found ≡ subcommand_of line_app (map string_bytes words.entry.now)) }
    ensures refused { IfErr result (λ fault. fault ≡ WordFault.Memory) }
{
    match parsed(alloc, words) {
        Ok(matches) => Ok(matches),
        Err(_refused) => Err(WordFault::Memory),
    }
}

/// What was found for this name.
fn text_of<'a>(values: &ArgMatches<'a>, name: &str) -> &'a str
    ensures { result.now ≡ text_in name.now (rows_of (found_of values.now)) }
{
    match values.get_str(name) {
        Some(text) => text,
        None => "",
    }
}

/// The number that was found for this name.
fn number_of(values: &ArgMatches<'_>, name: &str) -> u32
    ensures { result ≡ number_in name.now (rows_of (found_of values.now)) }
{
    match read_decimal(text_of(values, name).as_bytes(), u64::from(MOST_NUMBER)) {
        Some(number) => number as u32,
        None => 0,
    }
}

/// The file that was found for this name.
fn file_of(alloc: Global, values: &ArgMatches<'_>, name: &str) -> Result<FileName, AllocError>
    ensures { IfOk result (λ file. file ≡ text_in name.now (rows_of (found_of values.now))) }
{
    FileName::new(alloc, text_of(values, name))
}

/// Whether the flag of this name was found.
fn flag_of(values: &ArgMatches<'_>, name: &str) -> bool
    ensures { result ≡ flag_in name.now (rows_of (found_of values.now)) }
{
    text_of(values, name) == "true"
}

/// What was found behind the verb.
pub fn values_of<'m, 'a>(matches: &'m ArgMatches<'a>) -> &'m ArgMatches<'a>
    requires { IsSome (subcommand_rows_of matches.now) }
    ensures { Some (rows_of (found_of result.now))
        ≡ option_map (λ found. found.1) (subcommand_rows_of matches.entry.now) }
{
    match matches.subcommand() {
        Some((_verb, values)) => values,
        None => unreachable!(),
    }
}

fn solve_of(alloc: Global, values: &ArgMatches<'_>) -> Result<Command, AllocError>
    ensures { IfOk result (λ command. command ≡ command_in Form.Solve (rows_of (found_of values.now))) }
{
    let ask = Ask {
        slots: number_of(values, "slots"),
        nodes: number_of(values, "nodes"),
        workers: number_of(values, "workers"),
    };
    let plant = file_of(alloc, values, "plant")?;
    Ok(Command::Solve { plant, ask })
}

fn check_of(alloc: Global, values: &ArgMatches<'_>) -> Result<Command, AllocError>
    ensures { IfOk result (λ command. command ≡ command_in Form.Check (rows_of (found_of values.now))) }
{
    let plant = file_of(alloc, values, "plant")?;
    let dossier = file_of(alloc, values, "dossier")?;
    Ok(Command::Check { plant, dossier })
}

fn replay_of(alloc: Global, values: &ArgMatches<'_>) -> Result<Command, AllocError>
    ensures { IfOk result (λ command. command ≡ command_in Form.Replay (rows_of (found_of values.now))) }
{
    let plant = file_of(alloc, values, "plant")?;
    let plan = file_of(alloc, values, "plan")?;
    Ok(Command::Replay { plant, plan })
}

fn show_of(alloc: Global, values: &ArgMatches<'_>) -> Result<Command, AllocError>
    ensures { IfOk result (λ command. command ≡ command_in Form.Show (rows_of (found_of values.now))) }
{
    let plant = file_of(alloc, values, "plant")?;
    Ok(Command::Show { plant })
}

fn make_of(values: &ArgMatches<'_>) -> Command
    ensures { result ≡ command_in Form.Make (rows_of (found_of values.now)) }
{
    let number = number_of(values, "number");
    let solve = flag_of(values, "solve");
    Command::Make { number, solve }
}

fn root_of(alloc: Global, values: &ArgMatches<'_>) -> Result<Command, AllocError>
    ensures { IfOk result (λ command. command ≡ command_in Form.Root (rows_of (found_of values.now))) }
{
    let slots = number_of(values, "slots");
    let plant = file_of(alloc, values, "plant")?;
    Ok(Command::Root { plant, slots })
}

fn replan_of(alloc: Global, values: &ArgMatches<'_>) -> Result<Command, AllocError>
    ensures { IfOk result (λ command. command ≡ command_in Form.Replan (rows_of (found_of values.now))) }
{
    let at = number_of(values, "at");
    let slots = number_of(values, "slots");
    let nodes = number_of(values, "nodes");
    let plant = file_of(alloc, values, "plant")?;
    let plan = file_of(alloc, values, "plan")?;
    Ok(Command::Replan {
        plant,
        plan,
        at,
        slots,
        nodes,
    })
}

fn recheck_of(alloc: Global, values: &ArgMatches<'_>) -> Result<Command, AllocError>
    ensures { IfOk result (λ command. command ≡ command_in Form.Recheck (rows_of (found_of values.now))) }
{
    let at = number_of(values, "at");
    let plant = file_of(alloc, values, "plant")?;
    let plan = file_of(alloc, values, "plan")?;
    let dossier = file_of(alloc, values, "dossier")?;
    Ok(Command::Recheck {
        plant,
        plan,
        dossier,
        at,
    })
}

/// The command of this form whose values were found.
pub fn command_of(alloc: Global, form: Form, values: &ArgMatches<'_>) -> Result<Command, AllocError>
    ensures { IfOk result (λ command. command ≡ command_in form (rows_of (found_of values.now))) }
{
    match form {
        Form::Solve => solve_of(alloc, values),
        Form::Check => check_of(alloc, values),
        Form::Replay => replay_of(alloc, values),
        Form::Show => show_of(alloc, values),
        Form::Make => Ok(make_of(values)),
        Form::Root => root_of(alloc, values),
        Form::Replan => replan_of(alloc, values),
        Form::Recheck => recheck_of(alloc, values),
    }
}
