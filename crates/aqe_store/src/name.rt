//! The names and paths of files, and lists of files.

ghost use Rattle.std.specs.Prelude.{◌≡◌, IfOk};

use aqe_base::{Bytes, Listing, Memory};
use std::alloc::Global;
use std::marker::Model;

/// The name or the path of a file: a text of any length.
#[derive(Debug, Drop)]
pub struct Name {
    text: String,
}

impl Model for Name {
    ghost use Rattle.std.specs.Prelude.{List, ℕ, string_bytes};

    ghost Value = { List ℕ };

    ghost view = { λ n. string_bytes n.text };
}

impl Name {
    /// The name that is this text.
    pub fn copy_of(alloc: Global, text: &str) -> Result<Name, Memory>
        ensures { IfOk result (λ name. name ≡ text.now) }
    {
        match String::from_str(alloc, text) {
            Ok(text) => Ok(Name { text }),
            Err(_) => Err(Memory),
        }
    }

    /// The text of the name.
    pub fn as_str(&self) -> &str
        ensures { result.now ≡ self.now }
    {
        self.text.as_str()
    }
}

/// The names of the files of a folder.
pub type Names = Listing<Name>;

/// Files as a list of path and content. Of entries with the same path the first alone counts.
pub type Files = Listing<(Name, Bytes)>;
