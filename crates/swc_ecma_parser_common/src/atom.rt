ghost use Rattle.std.specs.Prelude.{◌≡◌, ◌==◌, IfOk, string_bytes};
ghost use Rattle.std.specs.Cmp.Lexicographic.{pointwise, lists_equiv, lists_per};
ghost use Rattle.std.proofs.Common.{rules};
ghost use Rattle.std.specs.Cmp.Rules.{comparing};

use crate::short::{LONGEST, Short};
use std::alloc::{AllocError, Global};
use std::fmt;
use std::marker::Model;

/// An owned text. One of up to 22 bytes, as most names are, stands in the value and takes no memory. Contracts see it as its bytes in UTF-8.
pub struct Atom {
    text: Text,
}

/// Where a text stands.
#[derive(Drop)]
enum Text {
    Short(Short),
    Long(Box<String>),
}

impl Model for Atom {
    ghost use Rattle.std.specs.Prelude.{List, ℕ};

    ghost Value = { List ℕ };

    ghost use Rattle.swc_ecma_parser_common.specs.Text.{text_bytes};

    ghost view = { λ a. text_bytes a.text };
}

impl Atom {
    /// A copy of a text; it fails only where memory runs out.
    pub fn new(alloc: Global, text: &str) -> Result<Atom, AllocError>
        ensures { IfOk result (λ a. a ≡ text.now) }
    {
        if text.len() <= LONGEST {
            return Ok(Atom {
                text: Text::Short(Short::new(text)),
            });
        }
        Ok(Atom {
            text: Text::Long(Box::new(alloc, String::from_str(alloc, text)?)?),
        })
    }

    /// The text that a `String` has; it fails only where memory runs out.
    pub fn from_string(text: String) -> Result<Atom, AllocError>
        ensures { IfOk result (λ a. a ≡ string_bytes text) }
    {
        if text.len() <= LONGEST {
            return Ok(Atom {
                text: Text::Short(Short::new(text.as_str())),
            });
        }
        let alloc = *text.allocator();
        Ok(Atom {
            text: Text::Long(Box::new(alloc, text)?),
        })
    }

    /// The text, borrowed.
    #[inline]
    pub fn as_str(&self) -> &str
        ensures { result.now ≡ self.now }
    {
        match &self.text {
            Text::Short(text) => text.as_str(),
            Text::Long(text) => text.as_str(),
        }
    }

    /// An equal text, or no memory.
    pub fn try_clone(&self) -> Result<Atom, AllocError>
        ensures { IfOk result (λ a. a ≡ self.now) }
    {
        let text = match &self.text {
            Text::Short(text) => Text::Short(text.copy()),
            Text::Long(text) => {
                let alloc = *Box::allocator(text);
                Text::Long(Box::new(alloc, (**text).clone()?)?)
            }
        };
        Ok(Atom { text })
    }
}

impl Drop for Atom {
    /// Gives back the block of a long text. It is written out, so that the proof of what drops an `Atom` ends at it.
    fn drop(self) {
        let Atom { text: _text } = self;
    }
}

impl fmt::Debug for Atom {
    fn fmt<W: fmt::Write>(&self, f: &mut fmt::Formatter<W>) -> fmt::Result {
        f.debug_struct("Atom")
            .field("text", &self.as_str())
            .finish()
    }
}

impl fmt::Display for Atom {
    fn fmt<W: fmt::Write>(&self, f: &mut fmt::Formatter<W>) -> fmt::Result {
        let text = self.as_str();
        write!(f, "{text}")
    }
}

impl PartialEq for Atom {
    ghost eq = { pointwise ◌==◌ };

    ghost laws = { Prim.search (comparing, rules) };

    fn eq(&self, other: &Atom) -> bool {
        self.as_str() == other.as_str()
    }
}

impl Eq for Atom {
    ghost laws = { Prim.search (comparing, rules) };
}
