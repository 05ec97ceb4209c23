//! Numbered texts: the names of a list of parameters, of a pattern, or of a rule's variables.
ghost use Rattle.std.specs.Prelude.{◌≡◌, [], ◌∷◌, ◌++◌, ℕ, List, length, position, string_bytes, IfOk, OnOk, OnErr};
ghost use Rattle.std.specs.Str.{bytes_eq};
ghost use Rattle.std.specs.HashMap.{get_by_text};
ghost use Rattle.dps_scopes.specs.Places.{place_or_last};

use dps_terms::NoMemory;
use std::alloc::{AllocError, Global};
use std::collections::HashMap;
use std::marker::Model;

/// Texts, numbered from 0. A text may stand at several places.
#[derive(Drop)]
pub struct Texts {
    texts: Vec<String>,
    /// Where each text stands first.
    places: HashMap<String, usize>,
}

impl Model for Texts {
    ghost use Rattle.std.specs.Prelude.{ℕ, List, map, string_bytes};
    ghost use Rattle.std.specs.Coded.{coded_list, coded_ℕ};
    ghost use Rattle.dps_scopes.specs.Places.{AreFirstPlaces};

    ghost Value = { List (List ℕ) };

    ghost coded = { coded_list (coded_list coded_ℕ) };

    ghost view = { λ a. map string_bytes a.texts.items };

    ghost invariant = { λ a. AreFirstPlaces a.places (map string_bytes a.texts.items) };
}

impl Texts {
    ghost use Rattle.std.specs.Prelude.{map, string_bytes};

    /// No texts. It takes no memory.
    pub fn new(alloc: Global) -> Texts
        ensures { result ≡ [] }
    {
        Texts {
            texts: Vec::new(alloc),
            places: HashMap::new(alloc),
        }
    }

    /// The number of the first text that is this one.
    pub fn find(&self, text: &str) -> Option<usize>
        ensures { result ≡ position (bytes_eq text.now) self.now }
    {
        self.places.get(text).copied()
    }

    /// How many there are.
    pub fn count(&self) -> usize
        ensures { result ≡ length self.now }
    {
        self.texts.len()
    }

    /// One more text, with the next number. It fails out of memory alone; nothing has changed then.
    pub fn push(&mut self, alloc: Global, text: &str) -> Result<(), NoMemory>
        ensures ok { OnOk result (self.new ≡ self.old ++ text.now ∷ []) }
        ensures unchanged { OnErr result (self.new ≡ self.old) }
    {
        let place = self.texts.len();
        let kept = String::from_str(alloc, text)?;
        let key = String::from_str(alloc, text)?;
        self.texts.push(kept)?;
        match note(&mut self.places, key, place) {
            Ok(()) => Ok(()),
            Err(refusal) => {
                self.texts.pop();
                Err(refusal)
            }
        }
    }

    /// The texts, in order.
    pub fn into_list(self) -> Vec<String>
        ensures { map string_bytes result.items ≡ self }
    {
        self.texts
    }
}

/// Notes the place of a text that has none.
fn note(places: &mut HashMap<String, usize>, text: String, place: usize) -> Result<(), NoMemory>
    ensures ok { OnOk result ((q : List ℕ) → get_by_text places.new q ≡ place_or_last (get_by_text places.old q) (bytes_eq q (string_bytes text)) place) }
    ensures err { OnErr result ((q : List ℕ) → get_by_text places.new q ≡ get_by_text places.old q) }
{
    if places.contains_key(text.as_str()) {
        return Ok(());
    }
    places.insert(text, place)?;
    Ok(())
}
