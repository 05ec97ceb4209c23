//! Problems as values.
ghost use Rattle.std.specs.Prelude.{◌≡◌, ◌↔◌, IsTrue, IsSome, IfSome};
ghost use Rattle.dps_signature.specs.Signature.{IsPrivate};
ghost use Rattle.dps_process.specs.Problem.{side_of, IsLawful, IsLawfulTheory, HasHighBinders};
ghost use Rattle.dps_process.specs.Kept.{IsKept};
ghost use Rattle.dps_process.specs.Models.{MayMeet, model_of};

use crate::{CommModel, Process};
use dps_branch::Side;
use dps_signature::Signature;
use dps_theory::Theory;
use std::marker::Model;

/// Two processes over a signature and a theory, in a model of communication. A file may mean each problem that is made,
/// and each bound variable has a number of at least 2^63.
#[derive(Drop)]
pub struct Problem {
    signature: Signature,
    theory: Theory,
    model: CommModel,
    left: Process,
    right: Process,
}

impl Model for Problem {
    ghost use Rattle.dps_process.specs.Problem.{Problem};
    ghost use Rattle.dps_process.specs.Kept.{problem_code, IsKept};
    ghost use Rattle.dps_process.specs.Models.{model_of};

    ghost Value = { Problem };

    ghost coded = { problem_code };

    ghost view = { λ a. record { signature = a.signature; theory = a.theory; model = model_of a.model; left = a.left; right = a.right } };

    ghost invariant = { λ a. IsKept (record { signature = a.signature; theory = a.theory; model = model_of a.model; left = a.left; right = a.right }) };
}

/// The look-ups take no memory.
impl Problem {
    /// The problem of the two sides.
    ///
    /// A file may mean it: the theory is accepted and over just the symbols of the signature, its rules hold declared
    /// names and variables alone, and each side is closed, over the signature, with declared channels, of at most 2^20
    /// nodes and 65,536 destructors. Each bound variable has a number of at least 2^63.
    pub fn new(
        signature: Signature,
        theory: Theory,
        model: CommModel,
        left: Process,
        right: Process,
    ) -> Problem
        requires lawful { IsLawful (record { signature = signature; theory = theory; model = model_of model; left = left; right = right }) }
        requires binders { HasHighBinders (record { signature = signature; theory = theory; model = model_of model; left = left; right = right }) }
        ensures { result ≡ record { signature = signature; theory = theory; model = model_of model; left = left; right = right } }
    {
        Problem {
            signature,
            theory,
            model,
            left,
            right,
        }
    }

    /// The problem of the two sides, or `None` exactly where no file may mean it or a bound variable has a number below
    /// 2^63. The theory is that of a file over the signature.
    pub fn check(
        signature: Signature,
        theory: Theory,
        model: CommModel,
        left: Process,
        right: Process,
    ) -> Option<Problem>
        requires { IsLawfulTheory signature theory }
        ensures made { IfSome result (λ problem. problem ≡ record { signature = signature; theory = theory; model = model_of model; left = left; right = right }) }
        ensures meant { IsSome result ↔ IsKept (record { signature = signature; theory = theory; model = model_of model; left = left; right = right }) }
    {
        if left.is_lawful(&signature)
            && right.is_lawful(&signature)
            && left.has_high_binders()
            && right.has_high_binders()
        {
            return Some(Problem::new(signature, theory, model, left, right));
        }
        None
    }

    /// The symbols and the names.
    pub fn signature(&self) -> &Signature
        ensures signature { result.now ≡ self.now.signature }
        ensures lawful { IsLawful self.now }
    {
        &self.signature
    }

    /// The theory.
    pub fn theory(&self) -> &Theory
        ensures theory { result.now ≡ self.now.theory }
        ensures lawful { IsLawful self.now }
    {
        &self.theory
    }

    /// The model of communication.
    pub fn model(&self) -> CommModel
        ensures { model_of result ≡ self.now.model }
    {
        self.model
    }

    /// The process of a side.
    pub fn side(&self, side: Side) -> &Process
        ensures process { result.now ≡ side_of self.now side }
        ensures lawful { IsLawful self.now }
        ensures binders { HasHighBinders self.now }
    {
        match side {
            Side::Left => &self.left,
            Side::Right => &self.right,
        }
    }

    /// Whether parts may communicate unseen on the channel: on a private one, and in the classic model on every one.
    pub fn may_meet(&self, channel: u32) -> bool
        ensures { IsTrue result ↔ MayMeet self.now.model self.now.signature channel }
    {
        match self.model {
            CommModel::Private => is_private_name(&self.signature, channel),
            CommModel::Classic => true,
        }
    }

    /// Whether the channel is a declared name that the attacker does not have.
    pub fn is_private(&self, channel: u32) -> bool
        ensures { IsTrue result ↔ IsPrivate self.now.signature channel }
    {
        is_private_name(&self.signature, channel)
    }
}

/// Whether a name of this number is declared, and private.
fn is_private_name(signature: &Signature, number: u32) -> bool
    ensures { IsTrue result ↔ IsPrivate signature.now number }
{
    if number >= signature.name_count() {
        return false;
    }
    signature.is_private(number)
}
