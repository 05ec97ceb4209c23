//! What a node of a side holds: channels, terms, and variables.
ghost use Rattle.std.specs.Prelude.{◌≡◌, ◌⊎◌, ◌∷◌, [], IfOk};
ghost use Rattle.dps_terms.specs.Tree.{app, trees};
ghost use Rattle.dps_elab.specs.Expansion.{value_at, value_of, channel_in};
ghost use Rattle.dps_elab.specs.Locals.{locals_from};

use crate::build::{
    add_privates, build, build_local, build_projection, declared_name, root, take_node,
};
use crate::local::{Frame, Local};
use crate::settle::Scope;
use crate::writer::Writer;
use crate::{ChannelUse, Stop};
use dps_scopes::{Channel, Written};
use dps_terms::{NoMemory, Sym, Term};
use std::alloc::{AllocError, Global};

impl<'a> Writer<'a> {
    ghost use Rattle.dps_elab.specs.Writing.{numbers_of, IsTermWritten, IsChannelAdded, IsVariablePushed, IsNodeTaken, IsTooLargeTerm};

    /// Takes a node from those that are left, and says how many may be on a path behind it.
    pub(crate) fn take_node(&mut self, depth: u32) -> Result<u32, Stop>
        ensures ok { IfOk result (λ below. IsNodeTaken self.old self.new depth below) }
        ensures large { result ≡ Err Stop.TooLarge → (self.old.nodes_left ≡ 0) ⊎ (depth ≡ 0) }
    {
        take_node(&mut self.nodes_left, depth)
    }

    /// Numbers a variable, which is the next local.
    pub(crate) fn push_variable(&mut self) -> Result<u64, NoMemory>
        ensures { IfOk result (λ variable. IsVariablePushed self.old self.new variable) }
    {
        let number = self.variable;
        let Some(next) = number.checked_add(1) else {
            return Err(AllocError);
        };
        self.stack.push(Local::Variable(number))?;
        self.variable = next;
        Ok(number)
    }

    /// Notes what stands in a channel's place. The answer is the declared name's number, or 0 where it is none.
    pub(crate) fn channel(&mut self, scope: Scope<'a>, channel: &Channel) -> Result<u32, NoMemory>
        ensures { IfOk result (λ number. IsChannelAdded self.old self.new (channel_in scope.entry.private_names.now (locals_from scope.entry.first self.old.stack.items) channel.now) number) }
    {
        let frame = Frame {
            first: scope.first,
            end: self.stack.len(),
        };
        let root = root(self.stack.as_slice(), frame, channel.tree.whole());
        let name = declared_name(scope.private_names, root);
        let place = channel.place;
        self.channels.push(ChannelUse { name, place })?;
        Ok(name.unwrap_or(0))
    }

    /// Builds a term, and notes its private names. It is behind a box, so that it takes no space on the stack while what
    /// stands behind it is written.
    pub(crate) fn term(
        &mut self,
        alloc: Global,
        scope: Scope<'a>,
        written: &Written,
        depth: u32,
    ) -> Result<Box<Term>, Stop>
        ensures ok { IfOk result (λ t. IsTermWritten self.old self.new depth (value_of (locals_from scope.entry.first self.old.stack.items) written.now) t.value) }
        ensures large { result ≡ Err Stop.TooLarge → IsTooLargeTerm self.old.nodes_left depth ((value_of (locals_from scope.entry.first self.old.stack.items) written.now).tree) }
    {
        let frame = Frame {
            first: scope.first,
            end: self.stack.len(),
        };
        let tree = written.tree.whole();
        let term = build(
            alloc,
            self.stack.as_slice(),
            frame,
            tree,
            &mut self.nodes_left,
            depth,
        )?;
        let uses = written.uses.as_slice();
        add_privates(self.stack.as_slice(), frame, uses, &mut self.privates)?;
        let boxed = Box::new(alloc, term)?;
        Ok(boxed)
    }

    /// Builds what a local stands for, behind a box as well.
    pub(crate) fn local(
        &mut self,
        alloc: Global,
        scope: Scope<'a>,
        number: usize,
        depth: u32,
    ) -> Result<Box<Term>, Stop>
        ensures ok { IfOk result (λ t. IsTermWritten self.old self.new depth (record { tree = (value_at (locals_from scope.entry.first self.old.stack.items) number).tree; privates = [] }) t.value) }
        ensures large { result ≡ Err Stop.TooLarge → IsTooLargeTerm self.old.nodes_left depth ((value_at (locals_from scope.entry.first self.old.stack.items) number).tree) }
    {
        let frame = Frame {
            first: scope.first,
            end: self.stack.len(),
        };
        let stack = self.stack.as_slice();
        let built = build_local(alloc, stack, frame, number, &mut self.nodes_left, depth)?;
        let boxed = Box::new(alloc, built)?;
        Ok(boxed)
    }

    /// Builds the projection of what a local stands for, behind a box as well.
    pub(crate) fn projection(
        &mut self,
        alloc: Global,
        scope: Scope<'a>,
        projection: Sym,
        number: usize,
        depth: u32,
    ) -> Result<Box<Term>, Stop>
        ensures ok { IfOk result (λ t. IsTermWritten self.old self.new depth (record { tree = app projection (trees ((value_at (locals_from scope.entry.first self.old.stack.items) number).tree ∷ [])); privates = [] }) t.value) }
        ensures large { result ≡ Err Stop.TooLarge → IsTooLargeTerm self.old.nodes_left depth (app projection (trees ((value_at (locals_from scope.entry.first self.old.stack.items) number).tree ∷ []))) }
    {
        let frame = Frame {
            first: scope.first,
            end: self.stack.len(),
        };
        let stack = self.stack.as_slice();
        let built = build_projection(
            alloc,
            stack,
            frame,
            projection,
            number,
            &mut self.nodes_left,
            depth,
        )?;
        let boxed = Box::new(alloc, built)?;
        Ok(boxed)
    }
}
