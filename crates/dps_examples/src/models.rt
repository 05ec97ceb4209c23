//! What the models of communication tell apart: each answer is proved.
ghost use Rattle.std.specs.Prelude.{MatchOption};
ghost use Rattle.dps_examples.specs.Differences.{IsInNoModel, IsInOneModel, AreAlikeIn, IsAttackedIn};
ghost use Rattle.dps_examples.specs.declared.models.Difference.TheVariants.{UnseenFirst, OneByOne};

use dps_branch::Side;

/// A model of communication.
#[derive(Clone, Copy, Debug, PartialEq, Eq)]
pub enum ModelName {
    Private,
    Classic,
    Eavesdrop,
}

/// Two parts and the labels of a run. The names `a` and `b` and the channels of these names are public, and `d` is a
/// private channel.
#[derive(Clone, Copy, Debug, PartialEq, Eq)]
pub enum Exchange {
    /// `in(b,x); out(a,x) | out(b,a)` with `out(a,ax1)`: the parts communicate unseen on a public channel.
    UnseenInPublic,
    /// `in(b,x); out(a,x) | out(b,a)` with `eav(b,ax1), out(a,ax2)`: the attacker overhears `a`.
    Overheard,
    /// `out(b,a); out(a,b) | in(b,x)` with `eav(b,ax1), out(a,ax2)`: after that the sender goes on.
    SenderGoesOn,
    /// `out(a,b); out(b,a) | in(b,x)` with `out(a,ax1), eav(b,ax2)`: what is overheard comes to the frame's end.
    OverheardLater,
    /// `in(b,x) | out(b,sdec(senc(a,b),b))` with `eav(b,ax1)`: the frame gets the value.
    OverheardValue,
    /// `in(b,x) | out(b,a)` with `eav(b,ax2)`: handles are counted from 1.
    WrongHandle,
    /// `in(d,x) | out(d,a)` with `eav(d,ax1)`: the attacker overhears nothing on a private channel.
    PrivateChannel,
    /// `in(b,x) | out(a,a)` with `eav(b,ax1)`: nor on different channels.
    OtherChannel,
    /// `in(b,x) | out(b,sdec(a,b))` with `eav(b,ax1)`: nor where nothing is sent.
    NoMessage,
}

/// The only model in which the process has a trace with these labels, and it has that with the frame that is stated for it.
/// `None` where it has no trace with these labels in any model.
pub fn model_of_trace(exchange: Exchange) -> Option<ModelName>
    ensures { MatchOption result (IsInNoModel exchange) (λ model. IsInOneModel exchange model) }
{
    match exchange {
        Exchange::UnseenInPublic => Some(ModelName::Classic),
        Exchange::Overheard => Some(ModelName::Eavesdrop),
        Exchange::SenderGoesOn => Some(ModelName::Eavesdrop),
        Exchange::OverheardLater => Some(ModelName::Eavesdrop),
        Exchange::OverheardValue => Some(ModelName::Eavesdrop),
        Exchange::WrongHandle => None,
        Exchange::PrivateChannel => None,
        Exchange::OtherChannel => None,
        Exchange::NoMessage => None,
    }
}

/// Two processes that are told apart in one model and not in another.
#[derive(Clone, Copy, Debug, PartialEq, Eq)]
pub enum Difference {
    /// `P` and `P + out(b,b)`, where `P` is `out(a,a) | in(a,x); out(b,b)`.
    UnseenFirst,
    /// `out(a,a) | in(a,x)` and `out(a,a); in(a,x) + in(a,x); out(a,a)`.
    OneByOne,
}

/// The side that has an attack in the model, with labels that are stated; `None` where the processes are trace equivalent.
pub fn attacked_side_in(model: ModelName, difference: Difference) -> Option<Side>
    ensures { MatchOption result (AreAlikeIn model difference) (λ side. IsAttackedIn model difference side) }
{
    match difference {
        Difference::UnseenFirst => side_with_unseen_first(model),
        Difference::OneByOne => side_with_one_by_one(model),
    }
}

/// Of `P` and `P + out(b,b)`, by a first label `out(b,ax1)`.
fn side_with_unseen_first(model: ModelName) -> Option<Side>
    ensures { MatchOption result (AreAlikeIn model UnseenFirst) (λ side. IsAttackedIn model UnseenFirst side) }
{
    match model {
        ModelName::Private => Some(Side::Right),
        ModelName::Classic => None,
        ModelName::Eavesdrop => Some(Side::Right),
    }
}

/// Of the parallel processes and their sequences, by a first label `eav(a,ax1)`.
fn side_with_one_by_one(model: ModelName) -> Option<Side>
    ensures { MatchOption result (AreAlikeIn model OneByOne) (λ side. IsAttackedIn model OneByOne side) }
{
    match model {
        ModelName::Private => None,
        ModelName::Classic => None,
        ModelName::Eavesdrop => Some(Side::Left),
    }
}
