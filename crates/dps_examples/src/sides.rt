//! Sides that a file may mean or not, and the size of one: each answer is proved.
ghost use Rattle.std.specs.Prelude.{◌≡◌, MatchBool};
ghost use Rattle.dps_process.specs.Process.{size};
ghost use Rattle.dps_process.specs.Problem.{IsLawful};
ghost use Rattle.dps_examples.specs.Examples.{with_output, each_form, each_destructor};

/// A process that puts out one term. `a` is a declared name and a channel, `k` a private name.
#[derive(Clone, Copy, Debug, PartialEq, Eq)]
pub enum Output {
    /// `out(a,a)`.
    DeclaredName,
    /// `out(a,k)`.
    PrivateName,
    /// `out(a,x)`: nothing binds x.
    FreeVariable,
    /// `out(a,senc(a))`: the symbol has two arguments.
    WrongArity,
    /// `out(a,c)`: the name is not declared.
    UndeclaredName,
    /// `out(a,@0)`: a file writes no name of the attacker's own.
    OwnName,
    /// `out(c,a)`: the channel is not declared.
    UndeclaredChannel,
}

/// Whether the problem of this process and `out(a,b)` is one that a file may mean.
pub fn is_lawful(output: Output) -> bool
    ensures { MatchBool result (IsLawful (with_output output)) (¬ IsLawful (with_output output)) }
{
    match output {
        Output::DeclaredName => true,
        Output::PrivateName => true,
        Output::FreeVariable => false,
        Output::WrongArity => false,
        Output::UndeclaredName => false,
        Output::OwnName => false,
        Output::UndeclaredChannel => false,
    }
}

/// The size of `(0 + out(a,a)) | in(a,x); if x = senc(a,b) then let y = sdec(x,b) in 0 else P else 0`, where P is
/// `out(a,senc(sdec(a,b),sdec(sdec(a,b),b)))`: 12 nodes of the process and 17 of its terms.
pub fn size_of_each_form() -> u64
    ensures { result ≡ size each_form }
{
    29
}

/// How many destructors stand in that process.
pub fn destructors_of_each_form() -> u64
    ensures { result ≡ each_destructor }
{
    4
}
