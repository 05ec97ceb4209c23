//! Small processes, and what an attacker can see of their runs: each answer is proved.
ghost use Rattle.std.specs.Prelude.{MatchBool};
ghost use Rattle.dps_examples.specs.Runs.{HasTheTrace, HasNoTrace};

/// A process and the labels of a run. The names `a` and `b` and the channels of these names are public, `d` is a private
/// channel, and `k` a private name.
#[derive(Clone, Copy, Debug, PartialEq, Eq)]
pub enum Run {
    /// `out(a,a)` with no label: a run may stop anywhere.
    Stop,
    /// `in(a,x); out(a,x)` with `in(a,@0), out(a,ax1)`: the attacker has names of his own.
    OwnName,
    /// `in(a,x); out(a,x)` with `in(a,k), out(a,ax1)`: he has no private name.
    PrivateName,
    /// `in(a,x); out(a,x)` with `in(a,d), out(a,ax1)`: nor a declared name that is private.
    PrivateDeclared,
    /// `in(a,x); out(a,x)` with `in(a,sdec(senc(a,b),b)), out(a,ax1)`: he computes what he sends.
    ComputedInput,
    /// `in(a,x)` with `in(a,sdec(a,b))`: what he sends is a message.
    FailedInput,
    /// `in(d,x)` with `in(d,a)`: he does not send on a private channel.
    PrivateInput,
    /// `in(a,x)` with `in(b,a)`: the label names the channel.
    OtherInput,
    /// `out(a,a); in(a,x)` with `out(a,ax1), in(a,ax1)`: he sends what he got.
    KnownHandle,
    /// `out(a,a); in(a,x)` with `out(a,ax1), in(a,ax2)`: he sends nothing that he has not got.
    UnknownHandle,
    /// `out(a,a); out(a,b); in(a,x); out(a,x)` with `out(a,ax1), out(a,ax2), in(a,ax1), out(a,ax3)`, of which the last gives
    /// `a`: the first handle is the first message.
    FirstHandle,
    /// The same with `in(a,ax2)`, and then the last gives `b`.
    SecondHandle,
    /// `out(a,a)` with `out(a,ax2)`: handles are counted from 1.
    WrongHandle,
    /// `out(d,a)` with `out(d,ax1)`: he gets nothing on a private channel.
    PrivateOutput,
    /// `out(d,a); out(a,b)` with `out(a,ax1)`: without a receiver the sender does not go on.
    NoReceiver,
    /// `in(d,x); out(a,b)` with `out(a,ax1)`: nor does a receiver without a sender.
    NoSender,
    /// `out(a,sdec(senc(a,b),b))` with `out(a,ax1)`: the frame gets the value.
    ComputedOutput,
    /// `out(a,sdec(a,b))` with `out(a,ax1)`: what is put out is a message.
    FailedOutput,
    /// `in(d,x); out(a,x) | out(d,a)` with `out(a,ax1)`: two parts communicate on a private channel.
    Communication,
    /// `out(d,a); out(a,b) | in(d,x)` with `out(a,ax1)`: after that the sender goes on.
    SenderGoesOn,
    /// `(out(d,a) | in(d,x); out(a,x)) | out(a,b)` with `out(a,ax1), out(a,ax2)`, of which the first gives `a`: the
    /// other part stays.
    ThirdPart,
    /// `in(b,x); out(a,x) | out(d,a)` with `out(a,ax1)`: they do not on different channels.
    OtherChannel,
    /// `in(d,x); out(a,x) | out(d,sdec(a,b))` with `out(a,ax1)`: nor where nothing is sent.
    FailedCommunication,
    /// `out(a,a) | out(a,b)` with `out(a,ax1), out(a,ax2)`, of which the first gives `b`.
    TwoOutputs,
    /// `out(a,a) | out(a,b)` with `out(a,ax1), out(a,ax2), out(a,ax3)`: each part runs once.
    ThreeOutputs,
    /// `out(a,a) + 0` with `out(a,ax1)`.
    FirstChoice,
    /// `0 + out(a,a)` with `out(a,ax1)`.
    SecondChoice,
    /// `out(a,a) + out(a,b)` with `out(a,ax1), out(a,ax2)`: just one is chosen.
    BothChoices,
    /// `in(a,x); let x = sdec(a,b) in 0 else out(a,x)` with `in(a,b), out(a,ax1)`: there x is the input.
    OuterVariable,
    /// `in(a,x); let x = a in out(a,x) else 0` with `in(a,b), out(a,ax1)`: there x is what is bound.
    InnerVariable,
}

/// Whether the process has a trace with these labels and the frame that is stated for it, in each model of communication.
/// If not, it has no trace with these labels in any model, whatever the frame.
pub fn has_trace(run: Run) -> bool
    ensures { MatchBool result (HasTheTrace run) (HasNoTrace run) }
{
    match run {
        Run::Stop => true,
        Run::OwnName => true,
        Run::PrivateName => false,
        Run::PrivateDeclared => false,
        Run::ComputedInput => true,
        Run::FailedInput => false,
        Run::PrivateInput => false,
        Run::OtherInput => false,
        Run::KnownHandle => true,
        Run::UnknownHandle => false,
        Run::FirstHandle => true,
        Run::SecondHandle => true,
        Run::WrongHandle => false,
        Run::PrivateOutput => false,
        Run::NoReceiver => false,
        Run::NoSender => false,
        Run::ComputedOutput => true,
        Run::FailedOutput => false,
        Run::Communication => true,
        Run::SenderGoesOn => true,
        Run::ThirdPart => true,
        Run::OtherChannel => false,
        Run::FailedCommunication => false,
        Run::TwoOutputs => true,
        Run::ThreeOutputs => false,
        Run::FirstChoice => true,
        Run::SecondChoice => true,
        Run::BothChoices => false,
        Run::OuterVariable => true,
        Run::InnerVariable => true,
    }
}
