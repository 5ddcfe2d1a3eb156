ghost use Rattle.std.specs.Prelude.{◌≡◌, ◌≤◌, map, string_bytes};
ghost use Rattle.command_line.specs.PlainLine.{is_file_word};
ghost use Rattle.command_line.specs.inside.Forms.{word_at, is_word, is_file, is_number, is_option, is_among_three};
ghost use Rattle.command_line.specs.inside.Forms.{is_solve, is_check, is_replay, is_show, is_make, is_make_and_solve};
ghost use Rattle.command_line.specs.inside.Forms.{is_root, is_replan, is_recheck, form_among};

use crate::{LONGEST_FILE_WORD, MOST_NUMBER};
use limits::{MOST_HORIZON, MOST_NODES, MOST_SLOTS, MOST_WORKERS};
use line_text::read_decimal;

/// Which command a line says.
#[derive(Clone, Copy, Debug, PartialEq, Eq)]
pub enum Form {
    Solve,
    Check,
    Replay,
    Show,
    Make,
    Root,
    Replan,
    Recheck,
}

/// The word at this place, or an empty one past the last.
fn word_at(words: &[String], place: usize) -> &str
    ensures { result.now ≡ word_at place (map string_bytes words.now) }
{
    match words.get(place) {
        Some(word) => word.as_str(),
        None => "",
    }
}

/// Whether this word stands there.
#[tactic(auto, unfolding(crate::specs::inside::Forms::is_word))]
fn is_word(words: &[String], place: usize, text: &str) -> bool
    ensures { result ≡ is_word place text.now (map string_bytes words.now) }
{
    word_at(words, place) == text
}

/// Whether the word names a file.
fn is_file_word(word: &str) -> bool
    ensures { result ≡ is_file_word word.now }
{
    match word.as_bytes() {
        [] => false,
        [first, ..] => word.len() <= LONGEST_FILE_WORD && *first != b'-',
    }
}

/// Whether a word that names a file stands there.
#[tactic(auto, unfolding(crate::specs::inside::Forms::is_file))]
fn is_file(words: &[String], place: usize) -> bool
    ensures { result ≡ is_file place (map string_bytes words.now) }
{
    is_file_word(word_at(words, place))
}

/// Whether the decimal of a number between `least` and `most` stands there.
#[tactic(auto, unfolding(crate::specs::inside::Forms::is_number))]
fn is_number(words: &[String], place: usize, least: u32, most: u32) -> bool
    ensures { result ≡ is_number place least most (map string_bytes words.now) }
{
    match read_decimal(word_at(words, place).as_bytes(), u64::from(most)) {
        Some(number) => u64::from(least) <= number,
        None => false,
    }
}

/// Whether this option stands there, and behind it a number in its range.
fn is_option(words: &[String], place: usize, option: &str, least: u32, most: u32) -> bool
    requires { place ≤ 8 }
    ensures { result ≡ is_option place option.now least most (map string_bytes words.now) }
{
    is_word(words, place, option) && is_number(words, place + 1, least, most)
}

/// Whether this option is one of three that stand one behind the other from this place on.
fn is_among_three(words: &[String], place: usize, option: &str, least: u32, most: u32) -> bool
    requires { place ≤ 4 }
    ensures { result ≡ is_among_three place option.now least most (map string_bytes words.now) }
{
    is_option(words, place, option, least, most)
        || is_option(words, place + 2, option, least, most)
        || is_option(words, place + 4, option, least, most)
}

fn is_solve(words: &[String]) -> bool
    ensures { result ≡ is_solve (map string_bytes words.now) }
{
    words.len() == 8
        && is_word(words, 0, "solve")
        && is_file(words, 1)
        && is_among_three(words, 2, "--slots", 1, u32::from(MOST_SLOTS))
        && is_among_three(words, 2, "--nodes", 0, MOST_NODES)
        && is_among_three(words, 2, "--workers", 1, MOST_WORKERS)
}

fn is_check(words: &[String]) -> bool
    ensures { result ≡ is_check (map string_bytes words.now) }
{
    words.len() == 3 && is_word(words, 0, "check") && is_file(words, 1) && is_file(words, 2)
}

fn is_replay(words: &[String]) -> bool
    ensures { result ≡ is_replay (map string_bytes words.now) }
{
    words.len() == 3 && is_word(words, 0, "replay") && is_file(words, 1) && is_file(words, 2)
}

fn is_show(words: &[String]) -> bool
    ensures { result ≡ is_show (map string_bytes words.now) }
{
    words.len() == 2 && is_word(words, 0, "show") && is_file(words, 1)
}

fn is_make(words: &[String]) -> bool
    ensures { result ≡ is_make (map string_bytes words.now) }
{
    words.len() == 2 && is_word(words, 0, "make") && is_number(words, 1, 0, MOST_NUMBER)
}

fn is_make_and_solve(words: &[String]) -> bool
    ensures { result ≡ is_make_and_solve (map string_bytes words.now) }
{
    words.len() == 3
        && is_word(words, 0, "make")
        && is_number(words, 1, 0, MOST_NUMBER)
        && is_word(words, 2, "--solve")
}

fn is_root(words: &[String]) -> bool
    ensures { result ≡ is_root (map string_bytes words.now) }
{
    words.len() == 4
        && is_word(words, 0, "root")
        && is_file(words, 1)
        && is_option(words, 2, "--slots", 1, u32::from(MOST_SLOTS))
}

fn is_replan(words: &[String]) -> bool
    ensures { result ≡ is_replan (map string_bytes words.now) }
{
    words.len() == 9
        && is_word(words, 0, "replan")
        && is_file(words, 1)
        && is_file(words, 2)
        && is_among_three(words, 3, "--at", 0, MOST_HORIZON)
        && is_among_three(words, 3, "--slots", 1, u32::from(MOST_SLOTS))
        && is_among_three(words, 3, "--nodes", 0, MOST_NODES)
}

fn is_recheck(words: &[String]) -> bool
    ensures { result ≡ is_recheck (map string_bytes words.now) }
{
    words.len() == 6
        && is_word(words, 0, "recheck")
        && is_file(words, 1)
        && is_file(words, 2)
        && is_file(words, 3)
        && is_option(words, 4, "--at", 0, MOST_HORIZON)
}

/// The form of a plain line, if the words are one.
pub fn form_of(words: &[String]) -> Option<Form>
    ensures { result ≡ form_among (map string_bytes words.now) }
{
    if is_solve(words) {
        Some(Form::Solve)
    } else if is_check(words) {
        Some(Form::Check)
    } else if is_replay(words) {
        Some(Form::Replay)
    } else if is_show(words) {
        Some(Form::Show)
    } else if is_make(words) || is_make_and_solve(words) {
        Some(Form::Make)
    } else if is_root(words) {
        Some(Form::Root)
    } else if is_replan(words) {
        Some(Form::Replan)
    } else if is_recheck(words) {
        Some(Form::Recheck)
    } else {
        None
    }
}
