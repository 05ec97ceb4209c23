//! Texts inside reports.
ghost use Rattle.std.specs.Prelude.{◌≡◌, ◌++◌, ◌∷◌, [], string_bytes, IfOk, OnOk, length};

use std::alloc::{AllocError, Global};
use std::marker::Model;

/// A text, as contracts see it its bytes.
#[derive(Drop)]
pub struct Text {
    text: String,
}

impl Model for Text {
    ghost use Rattle.std.specs.Prelude.{ℕ, List, string_bytes};
    ghost use Rattle.dps_report.specs.Stored.{text_code};

    ghost Value = { List ℕ };

    ghost coded = { text_code };

    ghost view = { λ a. string_bytes a.text };
}

impl Text {
    /// The text of this string.
    pub fn of(text: String) -> Text
        ensures { result ≡ string_bytes text }
    {
        Text { text }
    }

    /// The text.
    pub fn as_str(&self) -> &str
        ensures { result.now ≡ self.now }
    {
        self.text.as_str()
    }
}

/// A list of texts.
#[derive(Drop)]
pub struct Texts {
    texts: Vec<Text>,
}

impl Model for Texts {
    ghost use Rattle.std.specs.Prelude.{ℕ, List};
    ghost use Rattle.dps_report.specs.Stored.{texts_code};

    ghost Value = { List (List ℕ) };

    ghost coded = { texts_code };

    ghost view = { λ a. a.texts.items };
}

impl Texts {
    /// No texts. It takes no memory.
    pub fn new(alloc: Global) -> Texts
        ensures { result ≡ [] }
    {
        Texts {
            texts: Vec::new(alloc),
        }
    }

    /// Puts the text behind the others.
    pub fn push(&mut self, text: Text) -> Result<(), AllocError>
        ensures { OnOk result (self.new ≡ self.old ++ text ∷ []) }
    {
        self.texts.push(text)?;
        Ok(())
    }

    /// The texts, in order.
    pub fn as_slice(&self) -> &[Text]
        ensures { result.now ≡ self.now }
    {
        self.texts.as_slice()
    }
}
