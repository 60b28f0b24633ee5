//! The faults that a source of tokens keeps.

ghost use Rattle.std.specs.Prelude.{◌≡◌, ◌++◌, ◌∷◌, [], IfOk, OnOk, OnErr};

use std::alloc::{AllocError, Global};
use std::marker::Model;
use std::mem;
use swc_ecma_parser_common::Span;
use swc_ecma_parser_error::{Error, SyntaxError};

/// The two lists of faults that every source of tokens keeps: those recorded, which are handed out, and those held back
/// until the code is known to be a module's. Room is made when a fault comes, so that to release them takes no memory.
#[derive(Debug, Drop)]
pub struct FaultLists {
    recorded: Vec<Error>,
    held_back: Vec<Error>,
}

impl Model for FaultLists {
    ghost use Rattle.std.specs.Prelude.{◌+◌, ◌<◌, ◌≤◌, vec_len, vec_capacity};
    ghost use Rattle.swc_ecma_parser_input.specs.Faults.{Faults};

    ghost Value = { Faults };

    ghost use Rattle.std.specs.Coded.{codes};
    ghost use Rattle.swc_ecma_parser_error.specs.contracts.error.Error as error;

    ghost coded = { Prim.hlevel (codes, error.the_row.coded) };

    ghost view = { λ f. record { recorded = f.recorded.items; held_back = f.held_back.items } };

    ghost invariant = { λ f. 0 < vec_len f.recorded → vec_len f.recorded + vec_len f.held_back ≤ vec_capacity f.recorded };
}

impl FaultLists {
    /// No fault at all. It takes no memory.
    pub fn new(alloc: Global) -> FaultLists
        ensures { result ≡ record { recorded = []; held_back = [] } }
    {
        FaultLists {
            recorded: Vec::new(alloc),
            held_back: Vec::new(alloc),
        }
    }

    /// Records a fault, or changes nothing where memory runs out.
    pub fn add(&mut self, error: Error) -> Result<(), AllocError>
        ensures ok { OnOk result
            (self.new ≡ record self.old { recorded = self.old.recorded ++ error ∷ [] }) }
        ensures err { OnErr result (self.new ≡ self.old) }
    {
        self.recorded.reserve(self.held_back.len() + 1)?;
        self.recorded.push(error)?;
        Ok(())
    }

    /// Holds a fault back, or changes nothing where memory runs out.
    pub fn hold_back(&mut self, error: Error) -> Result<(), AllocError>
        ensures ok { OnOk result
            (self.new ≡ record self.old { held_back = self.old.held_back ++ error ∷ [] }) }
        ensures err { OnErr result (self.new ≡ self.old) }
    {
        if !self.recorded.is_empty() {
            self.recorded.reserve(self.held_back.len() + 1)?;
        }
        self.held_back.push(error)?;
        Ok(())
    }

    /// Moves the faults held back to the end of those recorded, in their order. It takes no memory.
    pub fn release(&mut self)
        ensures { self.new
            ≡ record { recorded = self.old.recorded ++ self.old.held_back; held_back = [] } }
    {
        if self.recorded.is_empty() {
            mem::swap(&mut self.recorded, &mut self.held_back);
        } else {
            self.recorded.append(&mut self.held_back).unwrap();
        }
    }

    /// Hands out the recorded faults, in order. Those held back stay. It takes no memory.
    pub fn take(&mut self) -> Vec<Error>
        ensures errors { result.items ≡ self.old.recorded }
        ensures lists { self.new ≡ record self.old { recorded = [] } }
    {
        let alloc = *self.recorded.allocator();
        mem::replace(&mut self.recorded, Vec::new(alloc))
    }

    /// Equal lists, or no memory.
    pub fn try_clone(&self) -> Result<FaultLists, AllocError>
        ensures { IfOk result (λ f. f ≡ self.now) }
    {
        let alloc = *self.recorded.allocator();
        let mut recorded = copies(alloc, &self.recorded)?;
        recorded.reserve(self.held_back.len())?;
        let held_back = copies(alloc, &self.held_back)?;
        Ok(FaultLists {
            recorded,
            held_back,
        })
    }
}

/// Equal faults in the same order, or no memory.
fn copies(alloc: Global, errors: &[Error]) -> Result<Vec<Error>, AllocError>
    ensures { IfOk result (λ v. v.items ≡ errors.now) }
{
    let mut copies = Vec::with_capacity(alloc, errors.len())?;
    for error in errors {
        match error.try_clone() {
            Ok(copy) => copies.push(copy)?,
            Err(_) => return Err(AllocError),
        }
    }
    Ok(copies)
}

/// The fault of kind `OutOfMemory` at a place.
pub fn out_of_memory(span: Span) -> Error
    ensures { result ≡ record { span = span; kind = SyntaxError.OutOfMemory } }
{
    Error {
        span,
        kind: SyntaxError::OutOfMemory,
    }
}
