//! The processes that a file defines.
ghost use Rattle.std.specs.Prelude.{◌≡◌, ◌<◌, [], ◌∷◌, ◌++◌, length, position, slice_get, Some, None, IfOk, OnOk, OnErr};
ghost use Rattle.std.specs.Option.{option_map};
ghost use Rattle.std.specs.Str.{bytes_eq};

use crate::Body;
use dps_terms::NoMemory;
use indexmap::IndexMap;
use std::alloc::{AllocError, Global};
use std::marker::Model;

/// `let P(x,y,..) = p.`: the parameters are the first locals of the body.
#[derive(Drop)]
pub struct Definition {
    pub name: String,
    pub parameters: usize,
    pub body: Body,
}

impl Model for Definition {
    ghost use Rattle.std.specs.Prelude.{string_bytes};
    ghost use Rattle.dps_scopes.specs.Definition.{Definition};
    ghost use Rattle.dps_scopes.specs.StoredDefinition.{definition_code};

    ghost Value = { Definition };

    ghost coded = { definition_code };

    ghost view = { λ a. record { name = string_bytes a.name; parameters = a.parameters; body = a.body } };
}

#[derive(Drop)]
struct Defined {
    parameters: usize,
    body: Body,
}

/// The processes that are defined so far, numbered from 0. No two have the same name.
#[derive(Drop)]
pub struct Definitions {
    processes: IndexMap<String, Defined>,
}

impl Model for Definitions {
    ghost use Rattle.std.specs.Prelude.{List, map, string_bytes};
    ghost use Rattle.std.specs.Coded.{coded_list};
    ghost use Rattle.dps_scopes.specs.Definition.{Definition};
    ghost use Rattle.dps_scopes.specs.StoredDefinition.{definition_code};

    ghost Value = { List Definition };

    ghost coded = { coded_list definition_code };

    ghost view = { λ a. map (λ e. record { name = string_bytes e.0; parameters = e.1.parameters; body = e.1.body }) a.processes.entries };
}

impl Definitions {
    /// No definitions. It takes no memory.
    pub fn new(alloc: Global) -> Definitions
        ensures { result ≡ [] }
    {
        Definitions {
            processes: IndexMap::new(alloc),
        }
    }

    /// The number of the process with this name.
    pub fn find(&self, name: &str) -> Option<usize>
        ensures { result ≡ position (λ d. bytes_eq name.now d.name) self.now }
    {
        self.processes.get_index_of(name)
    }

    /// How many parameters the process with this number has. It has to be there.
    pub fn parameters(&self, number: usize) -> usize
        requires { number < length self.now }
        ensures { option_map (λ d. d.parameters) (slice_get self.now number) ≡ Some result }
    {
        match self.processes.get_index(number) {
            Some((_, process)) => process.parameters,
            None => unreachable!(),
        }
    }

    /// One more process, with a name that no other has. It fails out of memory alone; nothing has changed then.
    pub fn push(
        &mut self,
        alloc: Global,
        name: &str,
        parameters: usize,
        body: Body,
    ) -> Result<(), NoMemory>
        requires { position (λ d. bytes_eq name.now d.name) self.old ≡ None }
        ensures ok { OnOk result (self.new ≡ self.old ++ record { name = name.now; parameters = parameters; body = body } ∷ []) }
        ensures unchanged { OnErr result (self.new ≡ self.old) }
    {
        let name = String::from_str(alloc, name)?;
        self.processes.insert(name, Defined { parameters, body })?;
        Ok(())
    }

    /// The definitions, in order. It fails only out of memory.
    #[tactic(auto, using(crate::proofs::Listing::for_listing))]
    pub fn into_list(self, alloc: Global) -> Result<Vec<Definition>, NoMemory>
        ensures { IfOk result (λ found. found.items ≡ self) }
    {
        let mut found = Vec::with_capacity(alloc, self.processes.len())?;
        for (name, process) in self.processes {
            let Defined { parameters, body } = process;
            found.push(Definition {
                name,
                parameters,
                body,
            })?;
        }
        Ok(found)
    }
}
