//! Frames that processes put out, compared under the theory of a text.
ghost use Rattle.dps_meaning.specs.Meaning.{AreOfText};

use dps_branch::Side;
use dps_meaning::laws::read_files_are_declared;
use dps_meaning::problem;
use dps_process::{CommModel, Process, ProcessView};
use dps_recipes::{Frame, evaluate};
use dps_static::{Comparison, Test, compare};
use dps_syntax::{File, read_file};
use dps_terms::{NoMemory, Term};
use dps_theory::Theory;
use std::alloc::Global;

/// Decryptions with one key and with two, a check of a signature, a test of equality, nested symbols on the left, a variable
/// that stands on the left alone, ground right sides, rules that overlap, and a right side that is no variable.
const DECLARATIONS: &str = "
free c.
const a, b.
fun senc/2, aenc/3, pk/1, h/1, sign/2, vk/1, f/1, g/2, nil/0.
reduc sdec(senc(x,y),y) -> x.
reduc adec(aenc(x,y,pk(z)),z) -> x.
reduc check(sign(x,y),vk(y)) -> x.
reduc eq(x,x) -> a.
reduc deep(f(f(x))) -> x.
reduc known(g(x,y),x) -> nil.
reduc is_key(vk(x)) -> f(a).
reduc hashed(h(x)) -> h(x).
reduc is_cipher(senc(x,y)) -> b; is_cipher(senc(a,y)) -> b.
";

/// How two frames compare.
#[derive(Clone, Copy, Debug, PartialEq, Eq)]
enum Answer {
    Same,
    /// A recipe has a value in one of them alone.
    Value,
    /// Two recipes have one value in one of them alone.
    Equal,
    /// The text does not give two frames of one length.
    NoFrames,
}

/// Adds the messages that the process puts out, and says whether it does nothing else.
fn add_outputs(
    alloc: Global,
    theory: &Theory,
    process: &Process,
    messages: &mut Vec<Term>,
) -> Result<bool, NoMemory> {
    match process.view() {
        ProcessView::Nil => Ok(true),
        ProcessView::Output(_, term, then) => match evaluate(alloc, theory, term)? {
            Some(message) => {
                messages.push(message)?;
                add_outputs(alloc, theory, then, messages)
            }
            None => Ok(false),
        },
        _ => Ok(false),
    }
}

/// The frame that the process puts out, if it does nothing else.
fn frame_of(alloc: Global, theory: &Theory, process: &Process) -> Result<Option<Frame>, NoMemory> {
    let mut messages = Vec::new(alloc);
    if add_outputs(alloc, theory, process, &mut messages)? {
        return Ok(Some(Frame { messages }));
    }
    Ok(None)
}

fn compared(
    alloc: Global,
    theory: &Theory,
    first: &Frame,
    second: &Frame,
) -> Result<Answer, NoMemory> {
    let length = first.messages.len();
    if length != second.messages.len() || length > 1000 {
        return Ok(Answer::NoFrames);
    }
    match compare(alloc, theory, first, second)? {
        Comparison::Same => Ok(Answer::Same),
        Comparison::Differ(Test::Value(_)) => Ok(Answer::Value),
        Comparison::Differ(Test::Equal(_, _)) => Ok(Answer::Equal),
    }
}

fn sides_compared(
    alloc: Global,
    theory: &Theory,
    left: &Process,
    right: &Process,
) -> Result<Answer, NoMemory> {
    let Some(first) = frame_of(alloc, theory, left)? else {
        return Ok(Answer::NoFrames);
    };
    let Some(second) = frame_of(alloc, theory, right)? else {
        return Ok(Answer::NoFrames);
    };
    compared(alloc, theory, &first, &second)
}

/// How the frames compare that the sides of the file put out.
fn file_compared(alloc: Global, file: &File) -> Result<Answer, NoMemory>
    requires { AreOfText file.now.declarations.items }
{
    match problem(alloc, file, CommModel::Private) {
        Ok(found) => sides_compared(
            alloc,
            found.theory(),
            found.side(Side::Left),
            found.side(Side::Right),
        ),
        Err(_) => Ok(Answer::NoFrames),
    }
}

/// How the frames compare that these processes put out.
#[tactic(auto, using(crate::proofs::Answering::of_text))]
fn answer_to(alloc: Global, left: &str, right: &str) -> Result<Answer, NoMemory> {
    let text = format!(in alloc; "{DECLARATIONS}query trace_equiv({left}, {right}).")?;
    if text.len() > 10_000 {
        return Ok(Answer::NoFrames);
    }
    read_files_are_declared();
    match read_file(alloc, text.as_bytes()) {
        Ok(file) => file_compared(alloc, &file),
        Err(_) => Ok(Answer::NoFrames),
    }
}

#[test]
fn frames(rt: HostRuntime) {
    let alloc = rt.alloc();
    let table = [
        ("out(c,a)", "out(c,b)", Answer::Equal),
        ("new k; out(c,k)", "new n; out(c,n)", Answer::Same),
        (
            "new k; out(c,k); out(c,k)",
            "new k; new n; out(c,k); out(c,n)",
            Answer::Equal,
        ),
        (
            "new k; out(c,senc(a,k))",
            "new k; out(c,senc(b,k))",
            Answer::Same,
        ),
        (
            "new k; out(c,senc(a,k)); out(c,k)",
            "new k; out(c,senc(b,k)); out(c,k)",
            Answer::Equal,
        ),
        (
            "new n; new k; out(c,senc(n,k)); out(c,k)",
            "new m; new k; out(c,m); out(c,k)",
            Answer::Value,
        ),
        (
            "new n; new k; new s; out(c,senc((n,s),k)); out(c,k); out(c,n)",
            "new n; new k; new s; new p; out(c,senc((n,s),k)); out(c,k); out(c,p)",
            Answer::Equal,
        ),
        // a key that is known only once another message is open
        (
            "new k; new l; new n; out(c,senc(n,l)); out(c,senc(l,k)); out(c,k); out(c,n)",
            "new k; new l; new n; new m; out(c,senc(n,l)); out(c,senc(l,k)); out(c,k); out(c,m)",
            Answer::Equal,
        ),
        (
            "new k; out(c,sign(a,k)); out(c,vk(k))",
            "new k; new l; out(c,sign(a,k)); out(c,vk(l))",
            Answer::Value,
        ),
        (
            "new k; new r; out(c,aenc(a,r,pk(k))); out(c,pk(k))",
            "new k; new r; out(c,aenc(b,r,pk(k))); out(c,pk(k))",
            Answer::Same,
        ),
        (
            "new k; out(c,aenc(a,a,pk(k))); out(c,pk(k))",
            "new k; out(c,aenc(b,a,pk(k))); out(c,pk(k))",
            Answer::Equal,
        ),
        // the attacker puts a symbol of his own on a message before he takes it apart
        ("new k; out(c,f(k))", "new k; out(c,k)", Answer::Value),
        (
            "new k; out(c,f(f(k)))",
            "new k; out(c,f(f(f(k))))",
            Answer::Value,
        ),
        (
            "new m; new n; out(c,g(m,n)); out(c,m)",
            "new m; new n; out(c,g(m,n)); out(c,n)",
            Answer::Value,
        ),
        ("new k; out(c,vk(k))", "new k; out(c,k)", Answer::Value),
        ("new k; out(c,h(k))", "new k; out(c,k)", Answer::Value),
        (
            "new k; out(c,h(k)); out(c,k)",
            "new k; new n; out(c,h(k)); out(c,n)",
            Answer::Equal,
        ),
        (
            "new k; out(c,(k,k))",
            "new k; new n; out(c,(k,n))",
            Answer::Equal,
        ),
        ("out(c,nil)", "out(c,f(a))", Answer::Equal),
        ("out(c,sdec(senc(a,b),b))", "out(c,a)", Answer::Same),
        ("out(c,sdec(a,b))", "out(c,a)", Answer::NoFrames),
    ];
    for (left, right, wanted) in &table {
        let found = answer_to(alloc, left, right);
        assert!(rt;
            matches!(found, Ok(answer) if answer == *wanted),
            "{left} and {right}"
        );
    }
}
