//! The scopes that are open.

ghost use Rattle.std.specs.Prelude.{◌≡◌, [], OnOk};
ghost use Rattle.ecma_declarations.specs.Declarations.{declared, entered, first_or, has_vars, hoists, is_var, left, rest_of, scope_of, start, turns_strict};

use crate::names::Names;
use ecma_events::{Binding, Region};
use std::alloc::{AllocError, Global};
use std::collections::VecDeque;
use std::marker::Model;
use std::mem;
use swc_ecma_parser_common::Span;
use swc_ecma_parser_model::Ident;

/// A scope: its region and where that begins, and the names that are declared lexically in it.
#[derive(Drop)]
pub(crate) struct Scope<'a> {
    pub(crate) region: Region,
    pub(crate) start: u32,
    pub(crate) is_strict: bool,
    pub(crate) names: Names<'a>,
}

/// The scopes that are open. Contracts see the stacks as lists.
#[derive(Drop)]
pub(crate) struct Scopes<'a> {
    alloc: Global,
    here: Scope<'a>,
    around: VecDeque<Scope<'a>>,
    vars: Names<'a>,
    outer: VecDeque<Names<'a>>,
}

impl<'a> Model for Scopes<'a> {
    ghost use Rattle.ecma_declarations.specs.Declarations.{Scopes as Open};

    ghost Value = { Open };

    ghost view = { λ s. record {
      here = s.here;
      around = s.around.items;
      vars = s.vars;
      outer = s.outer.items;
    } };
}

/// Whether a region has names of `var` of its own.
pub(crate) fn has_vars(region: Region) -> bool
    ensures { result ≡ has_vars region }
{
    match region {
        Region::Script(_)
        | Region::Module
        | Region::Function(_)
        | Region::Field
        | Region::StaticBlock => true,
        Region::Class(_) | Region::Block | Region::Loop | Region::Switch | Region::Catch => false,
    }
}

/// Whether functions right in a region are declared as `var` declares.
pub(crate) fn hoists(region: Region) -> bool
    ensures { result ≡ hoists region }
{
    match region {
        Region::Script(_) | Region::Function(_) | Region::StaticBlock => true,
        Region::Module
        | Region::Field
        | Region::Class(_)
        | Region::Block
        | Region::Loop
        | Region::Switch
        | Region::Catch => false,
    }
}

/// Whether a region turns code strict.
fn turns_strict(region: Region) -> bool
    ensures { result ≡ turns_strict region }
{
    match region {
        Region::Script(is_directed) => is_directed,
        Region::Function(code) => code.is_directed,
        Region::Module | Region::Class(_) => true,
        Region::Field
        | Region::StaticBlock
        | Region::Block
        | Region::Loop
        | Region::Switch
        | Region::Catch => false,
    }
}

/// Whether what declares a name right in a region does it as `var` does.
pub(crate) fn is_var(region: Region, binding: Binding) -> bool
    ensures { result ≡ is_var region binding }
{
    match binding {
        Binding::Var | Binding::Parameter => true,
        Binding::PlainFunction | Binding::Function => hoists(region),
        Binding::Let
        | Binding::Const
        | Binding::Each
        | Binding::Using
        | Binding::Class
        | Binding::CatchName
        | Binding::CatchPattern
        | Binding::Import => false,
    }
}

impl<'a> Scope<'a> {
    /// A scope without names.
    fn new(alloc: Global, region: Region, start: u32, is_strict: bool) -> Scope<'a>
        ensures { result ≡ scope_of region start is_strict }
    {
        Scope {
            region,
            start,
            is_strict,
            names: Names::new(alloc),
        }
    }
}

impl<'a> Scopes<'a> {
    /// What is open before all.
    pub(crate) fn new(alloc: Global) -> Scopes<'a>
        ensures { result ≡ start }
    {
        Scopes {
            alloc,
            here: Scope::new(alloc, Region::Block, 0, false),
            around: VecDeque::new(alloc),
            vars: Names::new(alloc),
            outer: VecDeque::new(alloc),
        }
    }

    /// The innermost scope.
    pub(crate) fn here(&self) -> &Scope<'a>
        ensures { result.now ≡ self.now.here }
    {
        &self.here
    }

    /// The names that are declared as `var` declares, in the innermost function.
    pub(crate) fn vars(&self) -> &Names<'a>
        ensures { result.now ≡ self.now.vars }
    {
        &self.vars
    }

    /// Opens a scope.
    pub(crate) fn enter(&mut self, region: Region, span: Span) -> Result<(), AllocError>
        ensures { OnOk result (self.new ≡ entered self.old region span) }
    {
        let is_strict = self.here.is_strict || turns_strict(region);
        let scope = Scope::new(self.alloc, region, span.lo.0, is_strict);
        let around = mem::replace(&mut self.here, scope);
        self.around.push_front(around)?;
        if has_vars(region) {
            let vars = mem::replace(&mut self.vars, Names::new(self.alloc));
            self.outer.push_front(vars)?;
        }
        Ok(())
    }

    /// Goes back to the names of `var` of the function around.
    #[tactic(auto, using(crate::proofs::Found::none_left))]
    fn leave_vars(&mut self)
        ensures { let c = self.old in self.new
            ≡ record c { vars = first_or [] c.outer; outer = rest_of c.outer } }
    {
        let outer = match self.outer.pop_front() {
            Some(vars) => vars,
            None => Names::new(self.alloc),
        };
        let _left = mem::replace(&mut self.vars, outer);
    }

    /// Goes back to the scope around.
    #[tactic(auto, using(crate::proofs::Found::none_left))]
    fn leave_scope(&mut self)
        ensures { let c = self.old in self.new
            ≡ record c { here = first_or c.here c.around; around = rest_of c.around } }
    {
        if let Some(scope) = self.around.pop_front() {
            let _left = mem::replace(&mut self.here, scope);
        }
    }

    /// Closes the innermost scope.
    pub(crate) fn leave(&mut self)
        ensures { self.new ≡ left self.old }
    {
        if has_vars(self.here.region) {
            self.leave_vars();
        }
        self.leave_scope();
    }

    /// Declares a name.
    pub(crate) fn declare(&mut self, binding: Binding, name: &'a Ident) -> Result<(), AllocError>
        ensures { OnOk result (self.new ≡ declared self.old binding name.now.span name.now.sym) }
    {
        if is_var(self.here.region, binding) {
            self.vars.add(binding, name)
        } else {
            self.here.names.add(binding, name)
        }
    }
}
