//! Names with their places.

ghost use Rattle.std.specs.Prelude.{◌≡◌, ◌∷◌, ◌++◌, [], OnOk};
ghost use Rattle.ecma_exports.specs.Exports.{place};
ghost use Rattle.ecma_exports.specs.Places.{find};

use std::alloc::{AllocError, Global};
use std::collections::HashMap;
use std::marker::Model;
use swc_ecma_parser_common::Span;

/// A name with its place.
#[derive(Clone, Copy)]
pub(crate) struct Name<'a> {
    pub(crate) text: &'a str,
    pub(crate) span: Span,
}

/// Names with their places. Contracts see them as a list in the order of the text.
#[derive(Drop)]
pub(crate) struct Places<'a> {
    names: Vec<Name<'a>>,
    latest: HashMap<&'a str, Span>,
}

impl<'a> Model for Places<'a> {
    ghost use Rattle.std.specs.Prelude.{List, map};
    ghost use Rattle.ecma_exports.specs.Places.{Place};
    ghost use Rattle.ecma_exports.specs.Kept.{placed, Agrees};

    ghost Value = { List Place };

    ghost view = { λ p. map placed p.names.items };

    ghost invariant = { λ p. Agrees p.names.items p.latest };
}

impl<'a> Places<'a> {
    /// No names.
    pub(crate) fn new(alloc: Global) -> Places<'a>
        ensures { result ≡ [] }
    {
        Places {
            names: Vec::new(alloc),
            latest: HashMap::new(alloc),
        }
    }

    /// Where a name stands last.
    pub(crate) fn find(&self, text: &str) -> Option<Span>
        ensures { result ≡ find text.now self.now }
    {
        self.latest.get(text).copied()
    }

    /// Adds a name.
    pub(crate) fn add(&mut self, text: &'a str, span: Span) -> Result<(), AllocError>
        ensures { OnOk result (self.new ≡ self.old ++ place text.now span ∷ []) }
    {
        self.names.reserve(1)?;
        self.latest.insert(text, span)?;
        self.names.push_reserved(Name { text, span });
        Ok(())
    }
}
