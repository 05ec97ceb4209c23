//! Processes, as a file writes them.
ghost use Rattle.std.specs.Prelude.{◌≡◌, IfOk};
ghost use Rattle.dps_scopes.specs.Body.{nil, parallel, choice, copies, fresh, input, output, conditional, bind, call, bodies};

use crate::Written;
use dps_lex::Place;
use dps_terms::{NoMemory, Sym, Term};
use std::alloc::Global;
use std::marker::Model;

/// What stands in a channel's place, and where.
#[derive(Drop)]
pub struct Channel {
    pub tree: Term,
    pub place: Place,
}

/// One step of taking a value apart by a pattern, from the outside inwards and from left to right.
#[derive(Drop)]
pub enum Step {
    /// The next local is what the projection makes of that local, if it is a message.
    Project(Sym, usize),
    /// That local is equal to the term.
    Test(usize, Written),
}

/// A process with its names looked up: locals are numbers, and definitions are called by their numbers.
///
/// The locals at a place are the parameters of the definition, the names that `new` binds, and what patterns take apart.
/// They are numbered from 0, from the outermost binder inwards.
#[cycle(body)]
#[derive(Drop)]
pub struct Body {
    node: Node,
}

#[cycle(body)]
#[derive(Drop)]
enum Node {
    Nil,
    Parallel(Vec<Body>),
    Choice(Vec<Body>),
    Copies(u32, Box<Body>),
    Fresh(Box<Body>),
    Input(Channel, Vec<Step>, Box<Body>),
    Output(Channel, Written, Box<Body>),
    Conditional(Written, Written, Box<Body>, Box<Body>),
    Bind(Written, Vec<Step>, Box<Body>, Box<Body>),
    Call(usize, Vec<Written>),
}

/// What a body is, with its parts borrowed. The value that a pattern takes apart is the next local at its `in` or `let`.
#[derive(Clone, Copy)]
pub enum BodyView<'a> {
    /// `0`
    Nil,
    /// `p | q | ..`
    Parallel(&'a [Body]),
    /// `p + q + ..`
    Choice(&'a [Body]),
    /// `!^n p`
    Copies(u32, &'a Body),
    /// `new k; p`: k is the next local
    Fresh(&'a Body),
    /// `in(c,pattern); p`
    Input(&'a Channel, &'a [Step], &'a Body),
    /// `out(c,u); p`
    Output(&'a Channel, &'a Written, &'a Body),
    /// `if u = v then p else q`
    Conditional(&'a Written, &'a Written, &'a Body, &'a Body),
    /// `let pattern = u in p else q`
    Bind(&'a Written, &'a [Step], &'a Body, &'a Body),
    /// `P(u,v,..)`: the definition with that number
    Call(usize, &'a [Written]),
}

impl Model for Body {
    ghost use Rattle.dps_scopes.specs.Body.{Body, body_nodes};
    ghost use Rattle.dps_scopes.specs.StoredBody.{body_code};

    ghost Value = { Body };

    ghost coded = { body_code };

    ghost use Rattle.dps_scopes.specs.Nodes.{body_of};

    ghost view = { λ a. body_of a.node };

    ghost size = { body_nodes };

    ghost use Rattle.dps_scopes.specs.Deeper.{deep_le-body_nodes};

    ghost size_decreases = { λ a h. deep_le-body_nodes a.node };
}

/// The makers. Those that return a `Result` fail only out of memory.
impl Body {
    /// `0`
    pub fn nil() -> Body
        ensures { result ≡ nil }
    {
        Body { node: Node::Nil }
    }

    /// `p | q | ..`
    pub fn parallel(parts: Vec<Body>) -> Body
        ensures { result ≡ parallel (bodies parts.items) }
    {
        Body {
            node: Node::Parallel(parts),
        }
    }

    /// `p + q + ..`
    pub fn choice(parts: Vec<Body>) -> Body
        ensures { result ≡ choice (bodies parts.items) }
    {
        Body {
            node: Node::Choice(parts),
        }
    }

    /// `!^n p`
    pub fn copies(alloc: Global, count: u32, body: Body) -> Result<Body, NoMemory>
        ensures { IfOk result (λ b. b ≡ copies count body) }
    {
        let body = Box::new(alloc, body)?;
        Ok(Body {
            node: Node::Copies(count, body),
        })
    }

    /// `new k; p`
    pub fn fresh(alloc: Global, body: Body) -> Result<Body, NoMemory>
        ensures { IfOk result (λ b. b ≡ fresh body) }
    {
        let body = Box::new(alloc, body)?;
        Ok(Body {
            node: Node::Fresh(body),
        })
    }

    /// `in(c,pattern); p`
    pub fn input(
        alloc: Global,
        channel: Channel,
        steps: Vec<Step>,
        then: Body,
    ) -> Result<Body, NoMemory>
        ensures { IfOk result (λ b. b ≡ input channel steps.items then) }
    {
        let then = Box::new(alloc, then)?;
        Ok(Body {
            node: Node::Input(channel, steps, then),
        })
    }

    /// `out(c,u); p`
    pub fn output(
        alloc: Global,
        channel: Channel,
        term: Written,
        then: Body,
    ) -> Result<Body, NoMemory>
        ensures { IfOk result (λ b. b ≡ output channel term then) }
    {
        let then = Box::new(alloc, then)?;
        Ok(Body {
            node: Node::Output(channel, term, then),
        })
    }

    /// `if u = v then p else q`
    pub fn conditional(
        alloc: Global,
        left: Written,
        right: Written,
        then: Body,
        other: Body,
    ) -> Result<Body, NoMemory>
        ensures { IfOk result (λ b. b ≡ conditional left right then other) }
    {
        let then = Box::new(alloc, then)?;
        let other = Box::new(alloc, other)?;
        Ok(Body {
            node: Node::Conditional(left, right, then, other),
        })
    }

    /// `let pattern = u in p else q`
    pub fn bind(
        alloc: Global,
        term: Written,
        steps: Vec<Step>,
        then: Body,
        other: Body,
    ) -> Result<Body, NoMemory>
        ensures { IfOk result (λ b. b ≡ bind term steps.items then other) }
    {
        let then = Box::new(alloc, then)?;
        let other = Box::new(alloc, other)?;
        Ok(Body {
            node: Node::Bind(term, steps, then, other),
        })
    }

    /// `P(u,v,..)`
    pub fn call(definition: usize, arguments: Vec<Written>) -> Body
        ensures { result ≡ call definition arguments.items }
    {
        Body {
            node: Node::Call(definition, arguments),
        }
    }
}

impl Body {
    ghost use Rattle.dps_scopes.specs.Views.{shown};

    /// What the body is, with its parts borrowed. It takes no memory.
    pub fn view(&self) -> BodyView<'_>
        ensures { shown result ≡ self.now }
    {
        match &self.node {
            Node::Nil => BodyView::Nil,
            Node::Parallel(parts) => BodyView::Parallel(parts.as_slice()),
            Node::Choice(parts) => BodyView::Choice(parts.as_slice()),
            Node::Copies(count, body) => BodyView::Copies(*count, body),
            Node::Fresh(body) => BodyView::Fresh(body),
            Node::Input(channel, steps, then) => {
                BodyView::Input(channel, steps.as_slice(), then)
            }
            Node::Output(channel, term, then) => BodyView::Output(channel, term, then),
            Node::Conditional(left, right, then, other) => {
                BodyView::Conditional(left, right, then, other)
            }
            Node::Bind(term, steps, then, other) => {
                BodyView::Bind(term, steps.as_slice(), then, other)
            }
            Node::Call(definition, arguments) => BodyView::Call(*definition, arguments.as_slice()),
        }
    }
}
