ghost use Rattle.std.specs.Prelude.{◌≡◌, [], ◌∷◌, ◌++◌, IfOk, OnOk, IsTrue, ◌↔◌, string_bytes};
ghost use Rattle.dps_path.specs.Order.{before, is_prefix};
ghost use Rattle.dps_path.specs.Text.{path_text};

use std::alloc::{AllocError, Global};
use std::fmt::Write;
use std::marker::Model;

/// The allocator has no memory left.
pub type NoMemory = AllocError;

/// The place of a node in a tree: the numbers of the kids on the way from the root.
#[derive(Debug, Drop)]
pub struct Path {
    numbers: Vec<u32>,
}

impl Model for Path {
    ghost use Rattle.std.specs.Prelude.{List, ℕ};

    ghost Value = { List ℕ };

    ghost view = { λ p. p.numbers.items };
}

impl Path {
    /// The path of the root.
    pub fn root(alloc: Global) -> Path
        ensures { result ≡ [] }
    {
        Path {
            numbers: Vec::new(alloc),
        }
    }

    /// The path of the kid with this number.
    pub fn child(&self, number: u32) -> Result<Path, NoMemory>
        ensures { IfOk result (λ p. p ≡ self.now ++ number ∷ []) }
    {
        let mut numbers = self.numbers.clone()?;
        numbers.push(number)?;
        Ok(Path { numbers })
    }

    /// The same path once more.
    pub fn copy(&self) -> Result<Path, NoMemory>
        ensures { IfOk result (λ p. p ≡ self.now) }
    {
        let numbers = self.numbers.clone()?;
        Ok(Path { numbers })
    }

    /// The path of these numbers.
    pub(crate) fn from_numbers(numbers: Vec<u32>) -> Path
        ensures { result ≡ numbers.items }
    {
        Path { numbers }
    }

    /// Whether both are the same path.
    pub fn equals(&self, other: &Path) -> bool
        ensures { IsTrue result ↔ (self.now ≡ other.now) }
    {
        self.numbers == other.numbers
    }

    /// Whether this path comes before the other in the order of paths.
    pub fn before(&self, other: &Path) -> bool
        ensures { result ≡ before self.now other.now }
    {
        self.numbers.cmp(&other.numbers).is_lt()
    }

    /// Whether the other path begins with this one.
    pub fn is_prefix(&self, other: &Path) -> bool
        ensures { result ≡ is_prefix self.now other.now }
    {
        other.numbers.starts_with(&self.numbers)
    }

    /// The path's text: `/` for the root, else `/` and the number for each part.
    pub fn text(&self, alloc: Global) -> Result<String, NoMemory>
        ensures { IfOk result (λ text. string_bytes text ≡ path_text self.now) }
    {
        if self.numbers.is_empty() {
            return String::from_str(alloc, "/");
        }
        let mut text = String::new(alloc);
        for number in &self.numbers {
            write!(text, "/{number}")?;
        }
        Ok(text)
    }
}
