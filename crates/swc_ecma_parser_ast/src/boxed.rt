//! Parts of trees in blocks of their own. They stand here, generic over the node, for the reason that `discard` does: a part that
//! no block was found for is let go.

ghost use Rattle.std.specs.Prelude.{◌≡◌, IfOk};

use crate::branch::TryStmt;
use crate::call::OptChainBase;
use crate::class::{Class, ClassMethod, Constructor, PrivateMethod};
use crate::function::Function;
use crate::loops::{ForInStmt, ForOfStmt, ForStmt};
use crate::member::{AutoAccessor, ClassProp, PrivateProp};
use crate::object::Prop;
use crate::target::AssignTarget;
use crate::template::Tpl;
use std::alloc::{AllocError, Global};

/// A value, in a block of its own. It knows the value by its bound alone, so what is dropped where memory runs out is proved once.
pub(crate) fn in_block<T: Drop>(alloc: Global, value: T) -> Result<Box<T>, AllocError>
    ensures { IfOk result (λ b. b.value ≡ value) }
{
    Ok(Box::new(alloc, value)?)
}

impl<N: Drop> Class<N> {
    /// It, in a block of its own; it fails only where memory runs out.
    pub fn boxed(self, alloc: Global) -> Result<Box<Class<N>>, AllocError>
        ensures { IfOk result (λ b. b.value ≡ self) }
    {
        in_block(alloc, self)
    }
}

impl<N: Drop> ClassMethod<N> {
    /// It, in a block of its own; it fails only where memory runs out.
    pub fn boxed(self, alloc: Global) -> Result<Box<ClassMethod<N>>, AllocError>
        ensures { IfOk result (λ b. b.value ≡ self) }
    {
        in_block(alloc, self)
    }
}

impl<N: Drop> Constructor<N> {
    /// It, in a block of its own; it fails only where memory runs out.
    pub fn boxed(self, alloc: Global) -> Result<Box<Constructor<N>>, AllocError>
        ensures { IfOk result (λ b. b.value ≡ self) }
    {
        in_block(alloc, self)
    }
}

impl<N: Drop> PrivateMethod<N> {
    /// It, in a block of its own; it fails only where memory runs out.
    pub fn boxed(self, alloc: Global) -> Result<Box<PrivateMethod<N>>, AllocError>
        ensures { IfOk result (λ b. b.value ≡ self) }
    {
        in_block(alloc, self)
    }
}

impl<N: Drop> Function<N> {
    /// It, in a block of its own; it fails only where memory runs out.
    pub fn boxed(self, alloc: Global) -> Result<Box<Function<N>>, AllocError>
        ensures { IfOk result (λ b. b.value ≡ self) }
    {
        in_block(alloc, self)
    }
}

impl<N: Drop> ForInStmt<N> {
    /// It, in a block of its own; it fails only where memory runs out.
    pub fn boxed(self, alloc: Global) -> Result<Box<ForInStmt<N>>, AllocError>
        ensures { IfOk result (λ b. b.value ≡ self) }
    {
        in_block(alloc, self)
    }
}

impl<N: Drop> ForOfStmt<N> {
    /// It, in a block of its own; it fails only where memory runs out.
    pub fn boxed(self, alloc: Global) -> Result<Box<ForOfStmt<N>>, AllocError>
        ensures { IfOk result (λ b. b.value ≡ self) }
    {
        in_block(alloc, self)
    }
}

impl<N: Drop> ForStmt<N> {
    /// It, in a block of its own; it fails only where memory runs out.
    pub fn boxed(self, alloc: Global) -> Result<Box<ForStmt<N>>, AllocError>
        ensures { IfOk result (λ b. b.value ≡ self) }
    {
        in_block(alloc, self)
    }
}

impl<N: Drop> AutoAccessor<N> {
    /// It, in a block of its own; it fails only where memory runs out.
    pub fn boxed(self, alloc: Global) -> Result<Box<AutoAccessor<N>>, AllocError>
        ensures { IfOk result (λ b. b.value ≡ self) }
    {
        in_block(alloc, self)
    }
}

impl<N: Drop> ClassProp<N> {
    /// It, in a block of its own; it fails only where memory runs out.
    pub fn boxed(self, alloc: Global) -> Result<Box<ClassProp<N>>, AllocError>
        ensures { IfOk result (λ b. b.value ≡ self) }
    {
        in_block(alloc, self)
    }
}

impl<N: Drop> PrivateProp<N> {
    /// It, in a block of its own; it fails only where memory runs out.
    pub fn boxed(self, alloc: Global) -> Result<Box<PrivateProp<N>>, AllocError>
        ensures { IfOk result (λ b. b.value ≡ self) }
    {
        in_block(alloc, self)
    }
}

impl<N: Drop> Prop<N> {
    /// It, in a block of its own; it fails only where memory runs out.
    pub fn boxed(self, alloc: Global) -> Result<Box<Prop<N>>, AllocError>
        ensures { IfOk result (λ b. b.value ≡ self) }
    {
        in_block(alloc, self)
    }
}

impl<N: Drop> TryStmt<N> {
    /// It, in a block of its own; it fails only where memory runs out.
    pub fn boxed(self, alloc: Global) -> Result<Box<TryStmt<N>>, AllocError>
        ensures { IfOk result (λ b. b.value ≡ self) }
    {
        in_block(alloc, self)
    }
}

impl<N: Drop> OptChainBase<N> {
    /// It, in a block of its own; it fails only where memory runs out.
    pub fn boxed(self, alloc: Global) -> Result<Box<OptChainBase<N>>, AllocError>
        ensures { IfOk result (λ b. b.value ≡ self) }
    {
        in_block(alloc, self)
    }
}

impl<N: Drop> Tpl<N> {
    /// It, in a block of its own; it fails only where memory runs out.
    pub fn boxed(self, alloc: Global) -> Result<Box<Tpl<N>>, AllocError>
        ensures { IfOk result (λ b. b.value ≡ self) }
    {
        in_block(alloc, self)
    }
}

impl<N: Drop> AssignTarget<N> {
    /// It, in a block of its own; it fails only where memory runs out.
    pub fn boxed(self, alloc: Global) -> Result<Box<AssignTarget<N>>, AllocError>
        ensures { IfOk result (λ b. b.value ≡ self) }
    {
        in_block(alloc, self)
    }
}
