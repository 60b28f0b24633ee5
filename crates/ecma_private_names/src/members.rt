//! What declares the private names of a class.

ghost use Rattle.std.specs.Prelude.{◌≡◌, ◌∷◌, ◌++◌, [], OnOk};
ghost use Rattle.ecma_private_names.specs.PrivateNames.{find};

use std::alloc::{AllocError, Global};
use std::collections::HashMap;
use std::marker::Model;
use swc_ecma_parser_common::Span;
use swc_ecma_parser_model::MethodKind;

/// What declares a private name. A field counts as a method.
#[derive(Clone, Copy)]
pub(crate) struct Member {
    pub(crate) kind: MethodKind,
    pub(crate) is_static: bool,
    /// Whether another member of this name stands before it.
    pub(crate) is_second: bool,
    pub(crate) span: Span,
}

/// A private name with what declares it.
#[derive(Clone, Copy)]
pub(crate) struct Entry<'a> {
    pub(crate) text: &'a str,
    pub(crate) member: Member,
}

/// The private names of a class. Contracts see them as a list in the order of their declarations.
#[derive(Drop)]
pub(crate) struct Members<'a> {
    entries: Vec<Entry<'a>>,
    latest: HashMap<&'a str, Member>,
}

impl<'a> Model for Members<'a> {
    ghost use Rattle.std.specs.Prelude.{List, map};
    ghost use Rattle.ecma_private_names.specs.PrivateNames.{Named};
    ghost use Rattle.ecma_private_names.specs.Kept.{named, Agrees};

    ghost Value = { List Named };

    ghost view = { λ m. map named m.entries.items };

    ghost invariant = { λ m. Agrees m.entries.items m.latest };
}

impl<'a> Members<'a> {
    /// No names.
    pub(crate) fn new(alloc: Global) -> Members<'a>
        ensures { result ≡ [] }
    {
        Members {
            entries: Vec::new(alloc),
            latest: HashMap::new(alloc),
        }
    }

    /// What declares a name last.
    pub(crate) fn find(&self, text: &str) -> Option<Member>
        ensures { result ≡ find text.now self.now }
    {
        self.latest.get(text).copied()
    }

    /// Adds a name.
    pub(crate) fn add(&mut self, text: &'a str, member: Member) -> Result<(), AllocError>
        ensures { OnOk result
            (self.new ≡ self.old ++ record { text = text.now; member = member } ∷ []) }
    {
        self.entries.reserve(1)?;
        self.latest.insert(text, member)?;
        self.entries.push_reserved(Entry { text, member });
        Ok(())
    }
}
