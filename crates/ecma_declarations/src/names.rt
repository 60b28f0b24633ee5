//! Names that are declared, and what declared each last.

ghost use Rattle.std.specs.Prelude.{◌≡◌, ◌∷◌, ◌++◌, [], map, OnOk};
ghost use Rattle.ecma_declarations.specs.Names.{Named, find};
ghost use Rattle.ecma_declarations.specs.Entries.{named};

use ecma_events::Binding;
use std::alloc::{AllocError, Global};
use std::collections::HashMap;
use std::marker::Model;
use swc_ecma_parser_common::Span;
use swc_ecma_parser_model::Ident;

/// What declares a name, and where.
#[derive(Clone, Copy)]
pub(crate) struct Found {
    pub(crate) binding: Binding,
    pub(crate) span: Span,
}

/// A name with what declares it.
#[derive(Clone, Copy)]
pub(crate) struct Entry<'a> {
    pub(crate) binding: Binding,
    pub(crate) name: &'a Ident,
}

/// Names that are declared. Contracts see them as a list in the order of their declarations.
#[derive(Drop)]
pub(crate) struct Names<'a> {
    entries: Vec<Entry<'a>>,
    latest: HashMap<&'a str, Found>,
}

impl<'a> Model for Names<'a> {
    ghost use Rattle.std.specs.Prelude.{List, map};
    ghost use Rattle.ecma_declarations.specs.Names.{Named};
    ghost use Rattle.ecma_declarations.specs.Entries.{named, Agrees};

    ghost Value = { List Named };

    ghost view = { λ n. map named n.entries.items };

    ghost invariant = { λ n. Agrees n.entries.items n.latest };
}

impl<'a> Names<'a> {
    /// No names.
    pub(crate) fn new(alloc: Global) -> Names<'a>
        ensures { result ≡ [] }
    {
        Names {
            entries: Vec::new(alloc),
            latest: HashMap::new(alloc),
        }
    }

    /// What declared a name last.
    pub(crate) fn find(&self, text: &str) -> Option<Found>
        ensures { result ≡ find text.now self.now }
    {
        self.latest.get(text).copied()
    }

    /// Adds a name.
    pub(crate) fn add(&mut self, binding: Binding, name: &'a Ident) -> Result<(), AllocError>
        ensures { OnOk result
            (self.new
            ≡ self.old
            ++ record { text = name.now.sym; binding = binding; span = name.now.span } ∷ []) }
    {
        let span = name.span;
        self.entries.reserve(1)?;
        self.latest
            .insert(name.sym.as_str(), Found { binding, span })?;
        self.entries.push_reserved(Entry { binding, name });
        Ok(())
    }

    /// The names, in the order of their declarations.
    pub(crate) fn entries(&self) -> &[Entry<'a>]
        ensures { map named result.now ≡ self.now }
    {
        self.entries.as_slice()
    }
}
