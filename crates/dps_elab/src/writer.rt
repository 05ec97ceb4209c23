//! Sides written out within limits on their nodes.
ghost use Rattle.std.specs.Prelude.{◌≡◌, ◌-◌, ◌<◌, ◌≤◌, ◌^◌, ◌∷◌, [], length, vec_len, true, IfOk};
ghost use Rattle.std.specs.Option.{option_copied};
ghost use Rattle.dps_scopes.specs.Body.{nil, bodies, input, output, conditional, bind};
ghost use Rattle.dps_scopes.specs.Views.{shown};
ghost use Rattle.dps_elab.specs.Expansion.{nothing, expansion_of};
ghost use Rattle.dps_elab.specs.Limits.{is_too_large};
ghost use Rattle.dps_elab.specs.Turns.{chain_of, IsCounted};

use crate::local::Local;
use crate::made::{bind_of, conditional_of, joined, output_of};
use crate::settle::{Join, Scope, settle};
use crate::{ChannelUse, PrivateUse, Stop};
use dps_process::Process;
use dps_scopes::{Body, BodyView, Channel, Definition, Step, Written};
use dps_terms::Sym;
use std::alloc::Global;

/// How many process and term nodes a side may have.
const MOST_NODES: u32 = 65_536;

/// How many of them may be on one path.
const MOST_ON_A_PATH: u32 = 1_000;

/// The number of the first bound variable.
const FIRST_VARIABLE: u64 = 1 << 63;

/// How a value is taken apart: the steps that are left, the body where it fits, the body where it does not (or `0`), and
/// how much of the stack is outside the pattern.
#[derive(Clone, Copy)]
pub(crate) struct Pattern<'a> {
    steps: &'a [Step],
    then: &'a Body,
    otherwise: Option<&'a Body>,
    outside: usize,
}

/// What writes sides: the locals, what was found, the numbers that come next, and how many nodes are left.
#[derive(Drop)]
pub(crate) struct Writer<'a> {
    pub(crate) stack: Vec<Local<'a>>,
    pub(crate) channels: Vec<ChannelUse>,
    pub(crate) privates: Vec<PrivateUse>,
    pub(crate) variable: u64,
    pub(crate) name: u64,
    pub(crate) nodes_left: u32,
}

impl<'a> Writer<'a> {
    ghost use Rattle.dps_elab.specs.Writing.{numbers_of, IsWritten, IsBodyWritten, AreCopiesWritten, IsTakenApart, IsTooLargeSide, IsTooLargeBody, AreTooLargeCopies, IsTooLargeApart, IsSideWritten, other_body};

    /// A writer that has written nothing. Private names are numbered from `name` on.
    pub(crate) fn new(alloc: Global, name: u64) -> Writer<'a>
        ensures stack { result.stack.items ≡ [] }
        ensures channels { result.channels.items ≡ [] }
        ensures privates { result.privates.items ≡ [] }
        ensures numbers { numbers_of result ≡ record { variable = 2 ^ 63; name = name } }
    {
        Writer {
            stack: Vec::new(alloc),
            channels: Vec::new(alloc),
            privates: Vec::new(alloc),
            variable: FIRST_VARIABLE,
            name,
            nodes_left: 0,
        }
    }

    /// Writes a side. Nothing is on the stack before it, and nothing behind it.
    pub(crate) fn side(
        &mut self,
        alloc: Global,
        private_names: &'a [u32],
        definitions: &'a [Definition],
        body: &'a Body,
    ) -> Result<Process, Stop>
        requires { self.old.stack.items ≡ [] }
        ensures ok { IfOk result (λ p. IsSideWritten self.old self.new (expansion_of private_names.now definitions.now body.now [] (numbers_of self.old)) p) }
        ensures large { result ≡ Err Stop.TooLarge → is_too_large (expansion_of private_names.now definitions.now body.now [] (numbers_of self.old)).process ≡ true }
    {
        self.nodes_left = MOST_NODES;
        let scope = Scope {
            private_names,
            definitions,
            first: 0,
        };
        self.body(alloc, scope, body, MOST_ON_A_PATH)
    }

    /// Writes a body.
    #[cycle(write)]
    fn body(
        &mut self,
        alloc: Global,
        scope: Scope<'a>,
        body: &'a Body,
        depth: u32,
    ) -> Result<Process, Stop>
        requires { scope.first ≤ vec_len self.old.stack }
        ensures ok { IfOk result (λ p. IsBodyWritten self.old self.new scope.entry depth body.now p) }
        ensures large { result ≡ Err Stop.TooLarge → IsTooLargeBody self.old scope.entry depth body.now }
    {
        let start = self.stack.len();
        let settled = settle(&mut self.stack, &mut self.name, scope, body)?;
        let process = self.node(alloc, settled.scope, settled.view, depth)?;
        self.stack.truncate(start);
        Ok(process)
    }

    /// Writes a body that adds a node.
    #[cycle(write)]
    fn node(
        &mut self,
        alloc: Global,
        scope: Scope<'a>,
        view: BodyView<'a>,
        depth: u32,
    ) -> Result<Process, Stop>
        requires within { scope.first ≤ vec_len self.old.stack }
        requires counted { IsCounted view }
        ensures ok { IfOk result (λ p. IsBodyWritten self.old self.new scope.entry depth (shown view.entry) p) }
        ensures large { result ≡ Err Stop.TooLarge → IsTooLargeBody self.old scope.entry depth (shown view.entry) }
    {
        match view {
            BodyView::Nil => self.nil(depth),
            BodyView::Parallel(parts) => self.pair(alloc, scope, Join::ByParallel, parts, depth),
            BodyView::Choice(parts) => self.pair(alloc, scope, Join::ByChoice, parts, depth),
            BodyView::Copies(count, body) => self.one_and_copies(alloc, scope, count, body, depth),
            BodyView::Input(channel, steps, then) => {
                self.input(alloc, scope, channel, steps, then, depth)
            }
            BodyView::Output(channel, term, then) => {
                self.output(alloc, scope, channel, term, then, depth)
            }
            BodyView::Conditional(left, right, then, other) => {
                self.conditional(alloc, scope, left, right, then, other, depth)
            }
            BodyView::Bind(term, steps, then, other) => {
                self.bind(alloc, scope, term, steps, then, other, depth)
            }
            BodyView::Fresh(_) => unreachable!(),
            BodyView::Call(_, _) => unreachable!(),
        }
    }

    /// Writes `0`.
    fn nil(&mut self, depth: u32) -> Result<Process, Stop>
        ensures ok { IfOk result (λ p. IsWritten self.old self.new depth (self.old.stack.items) (nothing (numbers_of self.old)) p) }
        ensures large { result ≡ Err Stop.TooLarge → IsTooLargeSide self.old.nodes_left depth ((nothing (numbers_of self.old)).process) }
    {
        self.take_node(depth)?;
        Ok(Process::nil())
    }

    /// Writes the parts of a chain, joined to the right. There is at least one.
    #[cycle(write)]
    fn chain(
        &mut self,
        alloc: Global,
        scope: Scope<'a>,
        join: Join,
        parts: &'a [Body],
        depth: u32,
    ) -> Result<Process, Stop>
        requires within { scope.first ≤ vec_len self.old.stack }
        requires some { 0 < length parts.now }
        ensures ok { IfOk result (λ p. IsBodyWritten self.old self.new scope.entry depth (chain_of join (bodies parts.now)) p) }
        ensures large { result ≡ Err Stop.TooLarge → IsTooLargeBody self.old scope.entry depth (chain_of join (bodies parts.now)) }
    {
        if parts.len() == 1 {
            self.body(alloc, scope, &parts[0], depth)
        } else {
            self.pair(alloc, scope, join, parts, depth)
        }
    }

    /// Writes the parts of a chain, of which there are two or more.
    #[cycle(write)]
    fn pair(
        &mut self,
        alloc: Global,
        scope: Scope<'a>,
        join: Join,
        parts: &'a [Body],
        depth: u32,
    ) -> Result<Process, Stop>
        requires within { scope.first ≤ vec_len self.old.stack }
        requires two { 1 < length parts.now }
        ensures ok { IfOk result (λ p. IsBodyWritten self.old self.new scope.entry depth (chain_of join (bodies parts.now)) p) }
        ensures large { result ≡ Err Stop.TooLarge → IsTooLargeBody self.old scope.entry depth (chain_of join (bodies parts.now)) }
    {
        let below = self.take_node(depth)?;
        let first = self.body(alloc, scope, &parts[0], below)?;
        let rest = parts.split_at(1).1;
        let last = self.chain(alloc, scope, join, rest, below)?;
        let written = joined(alloc, join, first, last)?;
        Ok(written)
    }

    /// Writes so many copies of a body, or one where that is none.
    #[cycle(write)]
    fn copies(
        &mut self,
        alloc: Global,
        scope: Scope<'a>,
        count: u32,
        body: &'a Body,
        depth: u32,
    ) -> Result<Process, Stop>
        requires { scope.first ≤ vec_len self.old.stack }
        ensures ok { IfOk result (λ p. AreCopiesWritten self.old self.new scope.entry depth (count - 1) body.now p) }
        ensures large { result ≡ Err Stop.TooLarge → AreTooLargeCopies self.old scope.entry depth (count - 1) body.now }
    {
        if count <= 1 {
            self.body(alloc, scope, body, depth)
        } else {
            self.one_and_copies(alloc, scope, count, body, depth)
        }
    }

    /// Writes two copies of a body or more.
    #[cycle(write)]
    fn one_and_copies(
        &mut self,
        alloc: Global,
        scope: Scope<'a>,
        count: u32,
        body: &'a Body,
        depth: u32,
    ) -> Result<Process, Stop>
        requires within { scope.first ≤ vec_len self.old.stack }
        requires two { 1 < count }
        ensures ok { IfOk result (λ p. AreCopiesWritten self.old self.new scope.entry depth (count - 1) body.now p) }
        ensures large { result ≡ Err Stop.TooLarge → AreTooLargeCopies self.old scope.entry depth (count - 1) body.now }
    {
        let below = self.take_node(depth)?;
        let first = self.body(alloc, scope, body, below)?;
        let last = self.copies(alloc, scope, count - 1, body, below)?;
        let written = Process::parallel(alloc, first, last)?;
        Ok(written)
    }

    /// Writes `in(c,pattern); p`.
    #[cycle(write)]
    fn input(
        &mut self,
        alloc: Global,
        scope: Scope<'a>,
        channel: &'a Channel,
        steps: &'a [Step],
        then: &'a Body,
        depth: u32,
    ) -> Result<Process, Stop>
        requires { scope.first ≤ vec_len self.old.stack }
        ensures ok { IfOk result (λ p. IsBodyWritten self.old self.new scope.entry depth (input channel.now steps.now then.now) p) }
        ensures large { result ≡ Err Stop.TooLarge → IsTooLargeBody self.old scope.entry depth (input channel.now steps.now then.now) }
    {
        let below = self.take_node(depth)?;
        let number = self.channel(scope, channel)?;
        let pattern = Pattern {
            steps,
            then,
            otherwise: None,
            outside: self.stack.len(),
        };
        let variable = self.push_variable()?;
        let fits = self.taken_apart(alloc, scope, pattern, below)?;
        let written = Process::input(alloc, number, variable, fits)?;
        Ok(written)
    }

    /// Writes `out(c,u); p`.
    #[cycle(write)]
    fn output(
        &mut self,
        alloc: Global,
        scope: Scope<'a>,
        channel: &'a Channel,
        term: &'a Written,
        then: &'a Body,
        depth: u32,
    ) -> Result<Process, Stop>
        requires { scope.first ≤ vec_len self.old.stack }
        ensures ok { IfOk result (λ p. IsBodyWritten self.old self.new scope.entry depth (output channel.now term.now then.now) p) }
        ensures large { result ≡ Err Stop.TooLarge → IsTooLargeBody self.old scope.entry depth (output channel.now term.now then.now) }
    {
        let below = self.take_node(depth)?;
        let number = self.channel(scope, channel)?;
        let sent = self.term(alloc, scope, term, below)?;
        let next = self.body(alloc, scope, then, below)?;
        let written = output_of(alloc, number, sent, next)?;
        Ok(written)
    }

    /// Writes `if u = v then p else q`.
    #[cycle(write)]
    fn conditional(
        &mut self,
        alloc: Global,
        scope: Scope<'a>,
        left: &'a Written,
        right: &'a Written,
        then: &'a Body,
        other: &'a Body,
        depth: u32,
    ) -> Result<Process, Stop>
        requires { scope.first ≤ vec_len self.old.stack }
        ensures ok { IfOk result (λ p. IsBodyWritten self.old self.new scope.entry depth (conditional left.now right.now then.now other.now) p) }
        ensures large { result ≡ Err Stop.TooLarge → IsTooLargeBody self.old scope.entry depth (conditional left.now right.now then.now other.now) }
    {
        let below = self.take_node(depth)?;
        let first = self.term(alloc, scope, left, below)?;
        let second = self.term(alloc, scope, right, below)?;
        let equal = self.body(alloc, scope, then, below)?;
        let unequal = self.body(alloc, scope, other, below)?;
        let written = conditional_of(alloc, first, second, equal, unequal)?;
        Ok(written)
    }

    /// Writes `let pattern = u in p else q`.
    #[cycle(write)]
    fn bind(
        &mut self,
        alloc: Global,
        scope: Scope<'a>,
        term: &'a Written,
        steps: &'a [Step],
        then: &'a Body,
        other: &'a Body,
        depth: u32,
    ) -> Result<Process, Stop>
        requires { scope.first ≤ vec_len self.old.stack }
        ensures ok { IfOk result (λ p. IsBodyWritten self.old self.new scope.entry depth (bind term.now steps.now then.now other.now) p) }
        ensures large { result ≡ Err Stop.TooLarge → IsTooLargeBody self.old scope.entry depth (bind term.now steps.now then.now other.now) }
    {
        let below = self.take_node(depth)?;
        let value = self.term(alloc, scope, term, below)?;
        let pattern = Pattern {
            steps,
            then,
            otherwise: Some(other),
            outside: self.stack.len(),
        };
        let variable = self.push_variable()?;
        let fits = self.taken_apart(alloc, scope, pattern, below)?;
        let unfit = self.body(alloc, scope, other, below)?;
        let written = bind_of(alloc, variable, value, fits, unfit)?;
        Ok(written)
    }

    /// Writes what takes a value apart. What is on the stack behind it is what was there outside the pattern.
    #[cycle(write)]
    fn taken_apart(
        &mut self,
        alloc: Global,
        scope: Scope<'a>,
        pattern: Pattern<'a>,
        depth: u32,
    ) -> Result<Process, Stop>
        requires within { scope.first ≤ pattern.outside }
        requires outside { pattern.outside ≤ vec_len self.old.stack }
        ensures ok { IfOk result (λ p. IsTakenApart self.old self.new scope.entry depth pattern.entry.steps.now pattern.entry p) }
        ensures large { result ≡ Err Stop.TooLarge → IsTooLargeApart self.old scope.entry depth pattern.entry.steps.now pattern.entry }
    {
        match pattern.steps.split_first() {
            None => {
                let then = self.body(alloc, scope, pattern.then, depth)?;
                self.stack.truncate(pattern.outside);
                Ok(then)
            }
            Some((step, steps)) => {
                let rest = Pattern {
                    steps,
                    then: pattern.then,
                    otherwise: pattern.otherwise,
                    outside: pattern.outside,
                };
                self.step(alloc, scope, step, rest, depth)
            }
        }
    }

    /// Writes one step, and what takes the value apart behind it.
    #[cycle(write)]
    fn step(
        &mut self,
        alloc: Global,
        scope: Scope<'a>,
        step: &'a Step,
        rest: Pattern<'a>,
        depth: u32,
    ) -> Result<Process, Stop>
        requires within { scope.first ≤ rest.outside }
        requires outside { rest.outside ≤ vec_len self.old.stack }
        ensures ok { IfOk result (λ p. IsTakenApart self.old self.new scope.entry depth (step.now ∷ rest.entry.steps.now) rest.entry p) }
        ensures large { result ≡ Err Stop.TooLarge → IsTooLargeApart self.old scope.entry depth (step.now ∷ rest.entry.steps.now) rest.entry }
    {
        match step {
            Step::Project(projection, number) => {
                self.project(alloc, scope, *projection, *number, rest, depth)
            }
            Step::Test(number, term) => self.test(alloc, scope, *number, term, rest, depth),
        }
    }

    /// Writes a step that projects.
    #[cycle(write)]
    fn project(
        &mut self,
        alloc: Global,
        scope: Scope<'a>,
        projection: Sym,
        number: usize,
        rest: Pattern<'a>,
        depth: u32,
    ) -> Result<Process, Stop>
        requires within { scope.first ≤ rest.outside }
        requires outside { rest.outside ≤ vec_len self.old.stack }
        ensures ok { IfOk result (λ p. IsTakenApart self.old self.new scope.entry depth ((Step.Project projection number) ∷ rest.entry.steps.now) rest.entry p) }
        ensures large { result ≡ Err Stop.TooLarge → IsTooLargeApart self.old scope.entry depth ((Step.Project projection number) ∷ rest.entry.steps.now) rest.entry }
    {
        let below = self.take_node(depth)?;
        let value = self.projection(alloc, scope, projection, number, below)?;
        let variable = self.push_variable()?;
        let fits = self.taken_apart(alloc, scope, rest, below)?;
        let unfit = self.otherwise(alloc, scope, rest.otherwise, below)?;
        let written = bind_of(alloc, variable, value, fits, unfit)?;
        Ok(written)
    }

    /// Writes a step that tests.
    #[cycle(write)]
    fn test(
        &mut self,
        alloc: Global,
        scope: Scope<'a>,
        number: usize,
        term: &'a Written,
        rest: Pattern<'a>,
        depth: u32,
    ) -> Result<Process, Stop>
        requires within { scope.first ≤ rest.outside }
        requires outside { rest.outside ≤ vec_len self.old.stack }
        ensures ok { IfOk result (λ p. IsTakenApart self.old self.new scope.entry depth ((Step.Test number term.now) ∷ rest.entry.steps.now) rest.entry p) }
        ensures large { result ≡ Err Stop.TooLarge → IsTooLargeApart self.old scope.entry depth ((Step.Test number term.now) ∷ rest.entry.steps.now) rest.entry }
    {
        let below = self.take_node(depth)?;
        let first = self.local(alloc, scope, number, below)?;
        let second = self.term(alloc, scope, term, below)?;
        let fits = self.taken_apart(alloc, scope, rest, below)?;
        let unfit = self.otherwise(alloc, scope, rest.otherwise, below)?;
        let written = conditional_of(alloc, first, second, fits, unfit)?;
        Ok(written)
    }

    /// Writes the body, or `0` where there is none.
    #[cycle(write)]
    fn otherwise(
        &mut self,
        alloc: Global,
        scope: Scope<'a>,
        body: Option<&'a Body>,
        depth: u32,
    ) -> Result<Process, Stop>
        requires { scope.first ≤ vec_len self.old.stack }
        ensures ok { IfOk result (λ p. IsBodyWritten self.old self.new scope.entry depth (other_body (option_copied body.entry)) p) }
        ensures large { result ≡ Err Stop.TooLarge → IsTooLargeBody self.old scope.entry depth (other_body (option_copied body.entry)) }
    {
        match body {
            Some(body) => self.body(alloc, scope, body, depth),
            None => self.nil(depth),
        }
    }
}
