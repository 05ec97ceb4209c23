//! What the words of the command line ask for.
ghost use Rattle.std.specs.Prelude.{◌≡◌, ◌≢◌, ◌∷◌, [], ℕ, ◌≤◌, None, IfOk, MatchBool, MatchOption, MatchResult, string_bytes, codes};
ghost use Rattle.std.specs.Fmt.{decimal};
ghost use Rattle.dps_process.specs.declared.model.CommModel.{CommModel as Model};
ghost use Rattle.dps_words.specs.Words.{texts, word_at, model_word, plan_numbers, IsOption, IsModelOf, IsNumberOf, AsksFor, BeginsWith, BeginsWithOption, BeginsWithModel, HasPlan, IsFirstWrong, RefusesWords};

use crate::command::{Command, Plan, PlanRefusal};
use dps_process::CommModel;
use itoa::Buffer;
use std::alloc::{AllocError, Global};

/// How many files can be made: they have the numbers from 0 on.
const MADE_FILES: u32 = 88;

/// A command, the model that its option names, and the number of `gen`.
#[derive(Clone, Copy)]
struct Asked {
    command: Command,
    model: Option<CommModel>,
    number: u32,
}

/// A command without an option and a number.
fn alone(command: Command) -> Asked
    ensures { result ≡ record { command = command; model = None; number = 0 } }
{
    Asked {
        command,
        model: None,
        number: 0,
    }
}

/// `replay` with this option.
fn replay_with(model: Option<CommModel>) -> Asked
    ensures { result ≡ record { command = Command.Replay; model = model; number = 0 } }
{
    Asked {
        command: Command::Replay,
        model,
        number: 0,
    }
}

// Whether the word is `check`.
fn is_check(word: &String) -> bool
    ensures { MatchBool result (string_bytes word.now ≡ codes "check") (string_bytes word.now ≢ codes "check") }
{
    word.as_str() == "check"
}

// Whether the word is `replay`.
fn is_replay(word: &String) -> bool
    ensures { MatchBool result (string_bytes word.now ≡ codes "replay") (string_bytes word.now ≢ codes "replay") }
{
    word.as_str() == "replay"
}

// Whether the word is the option that names a model.
fn is_semantics(word: &String) -> bool
    ensures { MatchBool result (string_bytes word.now ≡ codes "--semantics") (string_bytes word.now ≢ codes "--semantics") }
{
    word.as_str() == "--semantics"
}

// The model that the word names.
#[tactic(auto, using(crate::proofs::Replaying::no_model))]
fn model_named(word: &String) -> Option<CommModel>
    ensures { MatchOption result ((model : Model) → string_bytes word.now ≢ model_word model) (λ model. string_bytes word.now ≡ model_word model) }
{
    if word.as_str() == "private" {
        return Some(CommModel::Private);
    }
    if word.as_str() == "classic" {
        return Some(CommModel::Classic);
    }
    None
}

// Whether the word is `theory`.
fn is_theory(word: &String) -> bool
    ensures { MatchBool result (string_bytes word.now ≡ codes "theory") (string_bytes word.now ≢ codes "theory") }
{
    word.as_str() == "theory"
}

// Whether the word is `gen`.
fn is_gen(word: &String) -> bool
    ensures { MatchBool result (string_bytes word.now ≡ codes "gen") (string_bytes word.now ≢ codes "gen") }
{
    word.as_str() == "gen"
}

// Whether the word is the number, as it is printed.
fn is_number(word: &String, number: u32) -> bool
    ensures { MatchBool result (string_bytes word.now ≡ decimal number) (string_bytes word.now ≢ decimal number) }
{
    let mut digits = Buffer::new();
    word.as_str() == digits.format(number)
}

// The number of a file that can be made, where the word is one.
fn made_number(word: &String) -> Option<u32>
    ensures { MatchOption result ((n : ℕ) → n ≤ 87 → string_bytes word.now ≢ decimal n) (λ n. (n ≤ 87) × (string_bytes word.now ≡ decimal n)) }
{
    for number in 0..MADE_FILES {
        if is_number(word, number) {
            return Some(number);
        }
    }
    None
}

// Whether the word begins as an option does.
fn is_option(word: &String) -> bool
    ensures { MatchBool result (IsOption (string_bytes word.now)) (¬ IsOption (string_bytes word.now)) }
{
    word.as_str().starts_with("--")
}

// The command that the first word names, or the number of the first wrong word.
fn command_of(words: &[String]) -> Result<Asked, u32>
    ensures { MatchResult result (AsksFor (texts words.now)) (IsFirstWrong (texts words.now)) }
{
    match words {
        [] => Err(1),
        [word, ..] => {
            if is_check(word) {
                check_word(words)
            } else if is_replay(word) {
                replay_word(words)
            } else if is_theory(word) {
                theory_word(words)
            } else if is_gen(word) {
                gen_word(words)
            } else {
                Err(1)
            }
        }
    }
}

// The command, where the words behind `check` are right, or the number of the first wrong one.
fn check_word(words: &[String]) -> Result<Asked, u32>
    requires { BeginsWith (codes "check") (texts words.now) }
    ensures { MatchResult result (AsksFor (texts words.now)) (IsFirstWrong (texts words.now)) }
{
    match words {
        [] => Err(1),
        [_] => Err(2),
        [_, checked, ..] if is_option(checked) => Err(2),
        [_, _] => Ok(alone(Command::Check)),
        [_, _, _, ..] => Err(3),
    }
}

// The same of the words behind `replay`.
fn replay_word(words: &[String]) -> Result<Asked, u32>
    requires { BeginsWith (codes "replay") (texts words.now) }
    ensures { MatchResult result (AsksFor (texts words.now)) (IsFirstWrong (texts words.now)) }
{
    match words {
        [] => Err(1),
        [_] => Err(2),
        [_, option, ..] if is_semantics(option) => option_word(words),
        [_, file, ..] if is_option(file) => Err(2),
        [_, _] => Err(3),
        [_, _, _] => Ok(replay_with(None)),
        [_, _, _, _, ..] => Err(4),
    }
}

// The same of the words behind `replay --semantics`.
fn option_word(words: &[String]) -> Result<Asked, u32>
    requires { BeginsWithOption (texts words.now) }
    ensures { MatchResult result (AsksFor (texts words.now)) (IsFirstWrong (texts words.now)) }
{
    match words {
        [] => Err(1),
        [_] => Err(2),
        [_, _] => Err(3),
        [_, _, name, ..] => match model_named(name) {
            Some(model) => named_word(words, model),
            None => Err(3),
        },
    }
}

// The same of the words behind `replay --semantics M`.
fn named_word(words: &[String], model: CommModel) -> Result<Asked, u32>
    requires { BeginsWithModel model (texts words.now) }
    ensures { MatchResult result (AsksFor (texts words.now)) (IsFirstWrong (texts words.now)) }
{
    match words {
        [] => Err(1),
        [_] => Err(2),
        [_, _] => Err(3),
        [_, _, _] => Err(4),
        [_, _, _, file, ..] if is_option(file) => Err(4),
        [_, _, _, _] => Err(5),
        [_, _, _, _, _] => Ok(replay_with(Some(model))),
        [_, _, _, _, _, _, ..] => Err(6),
    }
}

// The same of the words behind `theory`.
fn theory_word(words: &[String]) -> Result<Asked, u32>
    requires { BeginsWith (codes "theory") (texts words.now) }
    ensures { MatchResult result (AsksFor (texts words.now)) (IsFirstWrong (texts words.now)) }
{
    match words {
        [] => Err(1),
        [_] => Err(2),
        [_, _] => Ok(alone(Command::Theory)),
        [_, _, _, ..] => Err(3),
    }
}

// The same of the words behind `gen`.
fn gen_word(words: &[String]) -> Result<Asked, u32>
    requires { BeginsWith (codes "gen") (texts words.now) }
    ensures { MatchResult result (AsksFor (texts words.now)) (IsFirstWrong (texts words.now)) }
{
    match words {
        [] => Err(1),
        [_] => Err(2),
        [_, word] => match made_number(word) {
            Some(number) => Ok(Asked {
                command: Command::Gen,
                model: None,
                number,
            }),
            None => Err(2),
        },
        [_, word, _, ..] => match made_number(word) {
            Some(_) => Err(3),
            None => Err(2),
        },
    }
}

fn one_number(alloc: Global, first: u32) -> Result<Vec<u32>, AllocError>
    ensures { IfOk result (λ numbers. numbers.items ≡ first ∷ []) }
{
    let mut numbers = Vec::new(alloc);
    numbers.push(first)?;
    Ok(numbers)
}

fn two_numbers(alloc: Global, first: u32, second: u32) -> Result<Vec<u32>, AllocError>
    ensures { IfOk result (λ numbers. numbers.items ≡ first ∷ second ∷ []) }
{
    let mut numbers = one_number(alloc, first)?;
    numbers.push(second)?;
    Ok(numbers)
}

/// The numbers of the words behind the command that belong to no option.
fn numbers_of(alloc: Global, asked: Asked) -> Result<Vec<u32>, AllocError>
    ensures { IfOk result (λ numbers. numbers.items ≡ plan_numbers asked.command asked.model) }
{
    match asked.command {
        Command::Replay => match asked.model {
            None => two_numbers(alloc, 2, 3),
            Some(_) => two_numbers(alloc, 4, 5),
        },
        Command::Check => one_number(alloc, 2),
        Command::Theory => one_number(alloc, 2),
        Command::Gen => one_number(alloc, 2),
    }
}

/// What the words, those after the program's name, ask for: `check FILE` or `replay [--semantics M] FILE TRACE`, where FILE
/// does not begin with `--` and M is `private` or `classic`, `theory FILE`, or `gen N`, where N is a decimal number from 0 to
/// 87.
///
/// # Errors
///
/// - `Wrong`: the words have no plan; the number is that of the first wrong one.
/// - `Memory`: there was no memory for the plan.
#[tactic(auto, using(crate::proofs::Planning::for_plan))]
pub fn plan(alloc: Global, words: &[String]) -> Result<Plan, PlanRefusal>
    ensures plan { MatchResult result (λ plan. HasPlan (texts words.now) plan.command plan.words.items) (RefusesWords (texts words.now)) }
    ensures files { IfOk result (λ plan. plan.words.items ≡ plan_numbers plan.command plan.model) }
    ensures model { IfOk result (λ plan. IsModelOf (texts words.now) plan.command plan.model) }
    ensures number { IfOk result (λ plan. IsNumberOf (texts words.now) plan.command plan.number) }
{
    let asked = match command_of(words) {
        Err(wrong) => return Err(PlanRefusal::Wrong(wrong)),
        Ok(asked) => asked,
    };
    match numbers_of(alloc, asked) {
        Err(_) => Err(PlanRefusal::Memory),
        Ok(numbers) => Ok(Plan {
            command: asked.command,
            words: numbers,
            model: asked.model,
            number: asked.number,
        }),
    }
}

#[tactic(auto, using(crate::proofs::Planning::for_word_of))]
/// The word of that number, from 1, or an empty text where there is none.
pub fn word_of(words: &[String], number: u32) -> &str
    ensures { result.now ≡ word_at (texts words.now) number }
{
    if number == 0 {
        return "";
    }
    let at = number as usize - 1;
    if at < words.len() {
        words[at].as_str()
    } else {
        ""
    }
}
