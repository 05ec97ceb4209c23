//! The outputs of both sides by number, each once.
ghost use Rattle.std.specs.Prelude.{◌≡◌, ◌↔◌, IfOk, OnOk, IfSome, MatchOption, IsTrue, slice_get, Some, None};
ghost use Rattle.dps_terms.specs.Seen.{seen};
ghost use Rattle.dps_tree.specs.Table.{HasMessage, HasOutput, AreOneOutput, IsSettled, IsBagOf, frame_of, IsMessageThere, IsOutputThere};

use crate::digest::with_numbers;
use crate::places::Places;
use dps_process::{Process, ProcessView};
use dps_terms::{NoMemory, Term, TermRef, mixed};
use std::alloc::{AllocError, Global};

/// An output: its channel, the number of its message, and the numbers of the outputs to which it then comes, in ascending
/// order.
#[derive(Drop)]
pub(crate) struct Output {
    pub(crate) channel: u32,
    pub(crate) message: usize,
    pub(crate) then: Vec<usize>,
}

/// The messages and the outputs of processes, by their numbers. Equal ones have one number, also where only the order of
/// parallel parts below an output is another.
#[derive(Drop)]
pub(crate) struct Table<'a> {
    messages: Vec<TermRef<'a>>,
    outputs: Vec<Output>,
    message_places: Places,
    output_places: Places,
}

impl<'a> Table<'a> {
    /// No outputs. It takes no memory.
    pub(crate) fn new(alloc: Global) -> Table<'a> {
        Table {
            messages: Vec::new(alloc),
            outputs: Vec::new(alloc),
            message_places: Places::new(alloc),
            output_places: Places::new(alloc),
        }
    }

    /// The numbers of the outputs to which the process comes, in ascending order. The table gets those that it lacks.
    pub(crate) fn bag(
        &mut self,
        alloc: Global,
        process: &'a Process,
    ) -> Result<Vec<usize>, NoMemory>
        ensures { IfOk result (λ bag. IsBagOf process.now self.old self.new bag.items) }
    {
        let mut numbers = Vec::new(alloc);
        self.settle(alloc, process, &mut numbers)?;
        numbers.sort_unstable();
        Ok(numbers)
    }

    /// Adds the numbers of the outputs to which the process comes.
    fn settle(
        &mut self,
        alloc: Global,
        process: &'a Process,
        numbers: &mut Vec<usize>,
    ) -> Result<(), NoMemory>
        ensures { OnOk result (IsSettled process.now self.old self.new numbers.old.items numbers.new.items) }
    {
        match process.view() {
            ProcessView::Nil => Ok(()),
            ProcessView::Parallel(left, right) => {
                self.settle(alloc, left, numbers)?;
                self.settle(alloc, right, numbers)?;
                Ok(())
            }
            ProcessView::Output(channel, message, then) => {
                let mut below = Vec::new(alloc);
                self.settle(alloc, then, &mut below)?;
                below.sort_unstable();
                let message = self.message_number(alloc, message)?;
                let output = Output {
                    channel,
                    message,
                    then: below,
                };
                let number = self.output_number(alloc, output)?;
                numbers.push(number)?;
                Ok(())
            }
            _ => Ok(()),
        }
    }

    /// The number of a message, a new one where the table lacks it.
    fn message_number(&mut self, alloc: Global, message: &'a Term) -> Result<usize, NoMemory>
        ensures { IfOk result (HasMessage self.old self.new message.now) }
    {
        let digest = message.whole().digest();
        let places = self.message_places.of(digest);
        if let Some(number) = message_among(&self.messages, places, message.whole()) {
            return Ok(number);
        }
        let number = self.messages.len();
        self.message_places.add(alloc, digest, number)?;
        self.messages.push(message.whole())?;
        Ok(number)
    }

    /// The number of an output, a new one where the table lacks it.
    fn output_number(&mut self, alloc: Global, output: Output) -> Result<usize, NoMemory>
        ensures { IfOk result (HasOutput self.old self.new output) }
    {
        let digest = digest(&output);
        let places = self.output_places.of(digest);
        if let Some(number) = output_among(&self.outputs, places, &output) {
            return Ok(number);
        }
        let number = self.outputs.len();
        self.output_places.add(alloc, digest, number)?;
        self.outputs.push(output)?;
        Ok(number)
    }

    /// The output with this number, if there is one.
    pub(crate) fn output(&self, number: usize) -> Option<&Output>
        ensures { MatchOption result (slice_get self.now.outputs.items number ≡ None) (λ output. slice_get self.now.outputs.items number ≡ Some output.now) }
    {
        self.outputs.get(number)
    }

    /// The message with this number, if there is one.
    fn message(&self, number: usize) -> Option<TermRef<'a>>
        ensures { MatchOption result (slice_get self.now.messages.items number ≡ None) (λ message. slice_get self.now.messages.items number ≡ Some message) }
    {
        match self.messages.get(number) {
            Some(message) => Some(*message),
            None => None,
        }
    }

    /// Copies of the messages with these numbers. A number of none adds none.
    pub(crate) fn copies(&self, alloc: Global, numbers: &[usize]) -> Result<Vec<Term>, NoMemory>
        ensures { IfOk result (λ copies. copies.items ≡ frame_of self.now numbers.now) }
    {
        let mut copies = Vec::new(alloc);
        for number in numbers {
            if let Some(message) = self.message(*number) {
                let copy = message.copy(alloc)?;
                copies.push(copy)?;
            }
        }
        Ok(copies)
    }
}

/// Which of the numbers is one of this message.
fn message_among(messages: &[TermRef<'_>], numbers: &[usize], message: TermRef<'_>) -> Option<usize>
    ensures { IfSome result (IsMessageThere messages.now (seen message.entry)) }
{
    for number in numbers {
        if let Some(other) = messages.get(*number) {
            if other.equals(message) {
                return Some(*number);
            }
        }
    }
    None
}

/// Which of the numbers is one of this output.
fn output_among(outputs: &[Output], numbers: &[usize], output: &Output) -> Option<usize>
    ensures { IfSome result (IsOutputThere outputs.now output.now) }
{
    for number in numbers {
        if let Some(other) = outputs.get(*number) {
            if are_equal(other, output) {
                return Some(*number);
            }
        }
    }
    None
}

/// Whether the two say the same.
fn are_equal(output: &Output, other: &Output) -> bool
    ensures { IsTrue result ↔ AreOneOutput output.now other.now }
{
    output.channel == other.channel && output.message == other.message && output.then == other.then
}

fn digest(output: &Output) -> u64 {
    let digest = mixed(mixed(0, u64::from(output.channel)), output.message as u64);
    with_numbers(digest, &output.then)
}
