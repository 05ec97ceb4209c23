//! The whole program, over the words, the files and the sink that it is given.
ghost use Rattle.std.specs.Prelude.{◌≡◌, ◌⊎◌, ℕ, List, [], string_bytes, IfOk, IfErr};
ghost use Rattle.std.specs.Io.KnownBytes.{append_known};
ghost use Rattle.dps_gen.specs.Generated.{generated_text};
ghost use Rattle.dps_meaning.specs.Meaning.{MeansTheory};
ghost use Rattle.dps_judge.specs.Meaning.{MeansEquivalent};
ghost use Rattle.dps_judge.specs.Judgement.{IsAttacked};
ghost use Rattle.dps_report.specs.declared.format.Format.TheVariants.{Second};
ghost use Rattle.dps_report.specs.declared.outcome.Outcome.{Outcome as AnOutcome};
ghost use Rattle.dps_report.specs.Reports.{report_text};
ghost use Rattle.dps_report.specs.declared.outcome.Outcome.TheVariants as outcomes;
ghost use Rattle.dps_words.specs.Words.{texts, plan_model, Asks, AsksToGenerate, HasNoPlan, IsFirstWrong};
ghost use Rattle.deepsec_main.specs.Reports.{answer_text, attack_report, theory_report, NeedsMemory};
ghost use Rattle.deepsec_main.specs.Answers.{AsksOfWord, AsksOfWords, NamesWord, IsRead, HasReadText, IsBeside, IsReplayed, IsProblemRead, IsProblemMissing, IsSeen, IsPlan, IsReplayStatus, checked_model, IsUnread, IsTooLong, Happens, IsRefusedFile, IsReportCaused, IsCaused, IsReported, IsUsed, AreKept, FollowsCounts, IsComplete};
ghost use Rattle.deepsec_main.specs.declared.answer.Answer.{Answer as AnAnswer};
ghost use Rattle.dps_io.specs.Files.{FilesState};

use crate::answer::Answer;
use crate::report::{answer_text, status};
use dps_io::{Files, ReadRefusal, Sink, read_all, write_all};
use dps_judge::laws::{
    no_text_has_theory_and_none, no_text_is_equivalent_and_attacked, no_text_is_refused_and_judged,
};
use dps_judge::{Meaning, TheoryVerdict, Verdict, judge, judge_theory, read_problem};
use dps_lex::Place;
use dps_meaning::laws::no_text_means_two_problems;
use dps_path::Path;
use dps_process::{CommModel, Problem};
use dps_report::{MEMORY_TEXT, Outcome, StopName, Text};
use dps_trace::ModelName;
use dps_witness::witness;
use dps_words::{Command, Plan, PlanRefusal, plan, word_of};
use std::alloc::{AllocError, Global};

/// The most bytes of a file.
const LIMIT: usize = 1_048_576;

/// The status of a run whose text was not written whole.
const WRITE_FAULT: u8 = 5;

/// What the program ends with: one of the numbers of the table of statuses in `docs/reports.md`.
#[derive(Clone, Copy, Debug, PartialEq, Eq)]
pub struct Status {
    pub code: u8,
}

/// The file of this word's number stops the run.
fn stopped(name: StopName, word: u32) -> Outcome
    ensures { result ≡ Outcome.Stopped name word }
{
    Outcome::Stopped { name, word }
}

/// The bytes of the file of this word's number, or what stops the run.
fn file_bytes<F: Files>(
    alloc: Global,
    words: &[String],
    file: u32,
    files: &mut F,
) -> Result<Vec<u8>, Outcome>
    ensures read { IfOk result (λ bytes. IsRead (F.state files.old) (F.state files.new) (texts words.now) file bytes.items) }
    ensures unread { IfErr result (IsUnread (F.state files.old) (F.state files.new) (texts words.now) file) }
    ensures kept { AreKept (F.state files.old) (F.state files.new) }
{
    match read_all(alloc, files, word_of(words, file), LIMIT) {
        Err(ReadRefusal::OpenFault) => Err(stopped(StopName::OpenFault, file)),
        Err(ReadRefusal::ReadFault) => Err(stopped(StopName::ReadFault, file)),
        Err(ReadRefusal::TooLong) => Err(stopped(StopName::TooLong, file)),
        Err(ReadRefusal::Memory) => Err(Outcome::NoMemory),
        Ok(bytes) => Ok(bytes),
    }
}

/// The file of this word's number is refused.
fn refused(file: u32, place: Place, cause: String) -> Outcome
    ensures { result ≡ Outcome.Refused file place.line place.column (string_bytes cause) }
{
    Outcome::Refused {
        file,
        line: place.line,
        column: place.column,
        cause: Text::of(cause),
    }
}

/// An attack whose trace has this text, found at the root.
fn attack(alloc: Global, trace: String) -> Outcome
    ensures { result ≡ outcomes.NotEquivalent checked_model [] (string_bytes trace) }
{
    Outcome::NotEquivalent {
        model: Some(ModelName::Private),
        node: Path::root(alloc),
        trace: Text::of(trace),
    }
}

/// What checking the file of this word's number comes to.
fn check<F: Files>(alloc: Global, words: &[String], file: u32, files: &mut F) -> Outcome
    requires { AsksOfWord (texts words.now) Command.Check file }
    ensures caused { IsReportCaused (F.state files.old) (F.state files.new) (texts words.now) result }
    ensures kept { AreKept (F.state files.old) (F.state files.new) }
{
    let bytes = match file_bytes(alloc, words, file, files) {
        Err(outcome) => return outcome,
        Ok(bytes) => bytes,
    };
    match judge(alloc, &bytes, CommModel::Private) {
        Err(AllocError) => Outcome::NoMemory,
        Ok(Verdict::Equivalent) => Outcome::Equivalent {
            model: Some(ModelName::Private),
        },
        Ok(Verdict::NotEquivalent { trace }) => attack(alloc, trace),
        Ok(Verdict::Refused { place, cause }) => refused(file, place, cause),
    }
}

/// What the theory of the file of this word's number comes to.
fn theory<F: Files>(alloc: Global, words: &[String], file: u32, files: &mut F) -> Outcome
    requires { AsksOfWord (texts words.now) Command.Theory file }
    ensures caused { IsReportCaused (F.state files.old) (F.state files.new) (texts words.now) result }
    ensures kept { AreKept (F.state files.old) (F.state files.new) }
{
    let bytes = match file_bytes(alloc, words, file, files) {
        Err(outcome) => return outcome,
        Ok(bytes) => bytes,
    };
    match judge_theory(alloc, &bytes) {
        Err(AllocError) => Outcome::NoMemory,
        Ok(TheoryVerdict::Accepted { rules }) => Outcome::TheoryAccepted { rules },
        Ok(TheoryVerdict::Refused { place, cause }) => refused(file, place, cause),
    }
}

/// The problem that the file of this word's number means, or what stops the run. The trace is not opened yet.
fn problem_of<F: Files>(
    alloc: Global,
    words: &[String],
    file: u32,
    files: &mut F,
) -> Result<Problem, Outcome>
    ensures found { IfOk result (λ problem. IsProblemRead (F.state files.old) (F.state files.new) (texts words.now) file problem) }
    ensures stopped { IfErr result (IsProblemMissing (F.state files.old) (F.state files.new) (texts words.now) file) }
    ensures kept { AreKept (F.state files.old) (F.state files.new) }
{
    let bytes = match file_bytes(alloc, words, file, files) {
        Err(outcome) => return Err(outcome),
        Ok(bytes) => bytes,
    };
    match read_problem(alloc, &bytes, CommModel::Private) {
        Err(AllocError) => Err(Outcome::NoMemory),
        Ok(Meaning::Found { problem }) => Ok(problem),
        Ok(Meaning::Refused { place, cause }) => Err(refused(file, place, cause)),
    }
}

/// What the trace of this word's number comes to beside the problem.
fn beside<F: Files>(
    alloc: Global,
    words: &[String],
    problem: &Problem,
    model: Option<CommModel>,
    trace: u32,
    files: &mut F,
) -> Outcome
    ensures seen { IsSeen (F.state files.old) (F.state files.new) (texts words.now) problem.now model trace result }
    ensures kept { AreKept (F.state files.old) (F.state files.new) }
{
    let bytes = match file_bytes(alloc, words, trace, files) {
        Err(outcome) => return outcome,
        Ok(bytes) => bytes,
    };
    witness(alloc, problem, model, trace, &bytes)
}

/// What the trace of one word comes to beside the file of another, which is read and judged before the trace is opened.
fn replay<F: Files>(
    alloc: Global,
    words: &[String],
    model: Option<CommModel>,
    file: u32,
    trace: u32,
    files: &mut F,
) -> Outcome
    requires { AsksOfWords (texts words.now) model file trace }
    ensures caused { IsReportCaused (F.state files.old) (F.state files.new) (texts words.now) result }
    ensures kept { AreKept (F.state files.old) (F.state files.new) }
{
    match problem_of(alloc, words, file, files) {
        Err(outcome) => outcome,
        Ok(problem) => beside(alloc, words, &problem, model, trace, files),
    }
}

/// The file that is made from the number.
fn generate(alloc: Global, words: &[String], number: u32) -> Answer
    requires { AsksToGenerate (texts words.now) number }
    ensures { (files : FilesState) → IsCaused files files (texts words.now) result }
{
    let _named = words;
    match dps_gen::text(alloc, number) {
        Err(AllocError) => report_of(Outcome::NoMemory),
        Ok(text) => Answer::Made { text },
    }
}

fn report_of(outcome: Outcome) -> Answer
    ensures { result ≡ Answer.Report outcome }
{
    Answer::Report { outcome }
}

/// What a plan comes to.
#[tactic(auto, using(crate::proofs::Reading::for_planned))]
fn planned<F: Files>(alloc: Global, words: &[String], plan: &Plan, files: &mut F) -> Answer
    requires { IsPlan (texts words.now) plan.now }
    ensures caused { IsCaused (F.state files.old) (F.state files.new) (texts words.now) result }
    ensures kept { AreKept (F.state files.old) (F.state files.new) }
{
    match plan.command {
        Command::Check => report_of(check(alloc, words, plan.words[0], files)),
        Command::Replay => report_of(replay(
            alloc,
            words,
            plan.model,
            plan.words[0],
            plan.words[1],
            files,
        )),
        Command::Theory => report_of(theory(alloc, words, plan.words[0], files)),
        Command::Gen => generate(alloc, words, plan.number),
    }
}

/// What the words come to.
fn answer<F: Files>(alloc: Global, words: &[String], files: &mut F) -> Answer
    ensures caused { IsCaused (F.state files.old) (F.state files.new) (texts words.now) result }
    ensures kept { AreKept (F.state files.old) (F.state files.new) }
{
    match plan(alloc, words) {
        Err(PlanRefusal::Wrong(word)) => report_of(stopped(StopName::WordsRefused, word)),
        Err(PlanRefusal::Memory) => report_of(Outcome::NoMemory),
        Ok(plan) => planned(alloc, words, &plan, files),
    }
}

/// Writes the text of an answer, and answers its status.
fn send<W: Sink>(sink: &mut W, bytes: &[u8], reached: &Answer) -> Status
    requires { bytes.now ≡ answer_text reached.now }
    ensures { IsReported W.written W.faults sink.old sink.new reached.now result.code }
{
    match write_all(sink, bytes) {
        Ok(()) => Status {
            code: status(reached),
        },
        Err(_) => Status { code: WRITE_FAULT },
    }
}

/// Gives an answer, or that there was no memory, where its text needs some and finds none.
fn report<W: Sink>(alloc: Global, sink: &mut W, reached: Answer) -> (Answer, Status)
    ensures kept { (result.0 ≡ reached) ⊎ ((result.0 ≡ Answer.Report outcomes.NoMemory) × NeedsMemory reached) }
    ensures reported { IsReported W.written W.faults sink.old sink.new result.0 result.1.code }
{
    match answer_text(alloc, &reached) {
        Ok(text) => {
            let status = send(sink, text.bytes(), &reached);
            (reached, status)
        }
        Err(AllocError) => {
            let missing = report_of(Outcome::NoMemory);
            let status = send(sink, MEMORY_TEXT, &missing);
            (missing, status)
        }
    }
}

/// All that the program does with these words, those after its name, with these files and this sink.
#[tactic(none)]
pub fn run_one<F: Files, W: Sink>(
    alloc: Global,
    words: &[String],
    files: &mut F,
    sink: &mut W,
) -> Status
    // The headline. `check` says equivalent: the text of the file means a problem, and its two processes are trace
    // equivalent in the model under which the words ask.
    ensures equivalent { (file : ℕ) → AsksOfWord (texts words.now) Command.Check file → result.code ≡ 0
        → HasReadText (F.state files.old) (F.state files.new) (texts words.now) Command.Check file (MeansEquivalent (plan_model (texts words.now))) }
    // Not equivalent: it means a problem with an attack, and the trace of the attack is what is printed.
    ensures not_equivalent { Asks (texts words.now) Command.Check → result.code ≡ 1 → (file : ℕ) × (trace : List ℕ)
        × HasReadText (F.state files.old) (F.state files.new) (texts words.now) Command.Check file (λ bytes. IsAttacked (plan_model (texts words.now)) bytes trace)
        × (W.written sink.new ≡ append_known (W.written sink.old) (attack_report trace)) }

    // `theory` says accepted: the rules of the text are accepted, and their number is printed.
    ensures theory_accepted { (file : ℕ) → AsksOfWord (texts words.now) Command.Theory file → result.code ≡ 0
        → (rules : ℕ) × HasReadText (F.state files.old) (F.state files.new) (texts words.now) Command.Theory file (λ bytes. MeansTheory bytes rules)
        × (W.written sink.new ≡ append_known (W.written sink.old) (theory_report rules)) }

    // `replay` says attack, matched or no run: the file was read and means a problem, the trace was read behind it, and this is
    // its answer.
    ensures replayed { Asks (texts words.now) Command.Replay → IsReplayStatus result.code → (outcome : AnOutcome)
        × IsReplayed (F.state files.old) (F.state files.new) (texts words.now) outcome
        × (W.written sink.new ≡ append_known (W.written sink.old) (report_text Second outcome)) }

    // `gen` writes the file of the number.
    ensures generated { Asks (texts words.now) Command.Gen → result.code ≡ 0
        → (number : ℕ) × AsksToGenerate (texts words.now) number × (W.written sink.new ≡ append_known (W.written sink.old) (generated_text number)) }

    // Each other status comes only from its cause.
    ensures refused { result.code ≡ 3 → (file line column : ℕ) × (cause : List ℕ) × IsRefusedFile (F.state files.old) (F.state files.new) (texts words.now) file line column cause }
    ensures counts { FollowsCounts (F.state files.old) (F.state files.new) (W.faults sink.old) (W.faults sink.new) result.code }
    ensures words_refused { result.code ≡ 7 → (wrong : ℕ) × IsFirstWrong (texts words.now) wrong }
    ensures too_long { result.code ≡ 8 → (file : ℕ) × Happens (F.state files.old) (texts words.now) file (λ from. IsTooLong from (F.state files.new) (texts words.now) file) }

    // Some answer has its cause, and is given.
    ensures answer { (answer : AnAnswer) × IsCaused (F.state files.old) (F.state files.new) (texts words.now) answer
        × IsReported W.written W.faults sink.old sink.new answer result.code }

    // No file is touched where the words name none, and none but those that they name, each of which is opened once.
    ensures untouched { HasNoPlan (texts words.now) → F.state files.new ≡ F.state files.old }
    ensures used { IsUsed (F.state files.old) (F.state files.new) (texts words.now) }
    ensures kept { AreKept (F.state files.old) (F.state files.new) }

    // Where nothing fails, the words and the file decide the status.
    ensures complete { IsComplete (F.state files.old) (F.state files.new) (W.faults sink.old) (W.faults sink.new) (texts words.now) result.code }
{
    no_text_means_two_problems();
    no_text_has_theory_and_none();
    no_text_is_refused_and_judged();
    no_text_is_equivalent_and_attacked();
    let reached = answer(alloc, words, files);
    report(alloc, sink, reached).1
}

/// What is answered where not even the words found memory.
pub fn without_memory<W: Sink>(sink: &mut W) -> Status
    ensures { IsReported W.written W.faults sink.old sink.new (Answer.Report outcomes.NoMemory) result.code }
{
    send(sink, MEMORY_TEXT, &report_of(Outcome::NoMemory))
}
