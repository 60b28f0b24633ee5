//! Scripts, modules and programs: a tree goes in, and its events come out.

ghost use Rattle.std.specs.Prelude.{◌≡◌, ◌∷◌, [], map, IfOk};
ghost use Rattle.ecma_event_exprs.specs.Pending.{work_events};
ghost use Rattle.ecma_events.specs.Event as steps;
ghost use Rattle.ecma_events.specs.Event.{event_of};
ghost use Rattle.ecma_event_exprs.specs.Events.{events_of};
ghost use Rattle.swc_ecma_parser_ast.specs.View.{view_module, view_program, view_script};

use crate::run::finish;
use ecma_event_exprs::{Walk, Work, are_directed};
use ecma_events::{Event, Region};
use std::alloc::{AllocError, Global};
use swc_ecma_parser_ast::{Module, Program, Script, Span};

/// A whole: its region, and what stands in it.
fn whole<'a>(
    alloc: Global,
    region: Region,
    span: Span,
    body: Work<'a>,
) -> Result<Vec<Event<'a>>, AllocError>
    ensures { IfOk result
        (λ r. map event_of r.items
        ≡ steps.enter region span ∷ work_events body.entry (steps.leave ∷ [])) }
{
    let mut walk = Walk::new(alloc);
    walk.event(Event::Leave)?;
    walk.two(Work::Event(Event::Enter(region, span)), body)?;
    finish(walk, Vec::new(alloc))
}

/// The events of a script: exactly `events_of` of its tree. It fails only where memory runs out.
pub fn script_events(alloc: Global, script: &Script) -> Result<Vec<Event<'_>>, AllocError>
    ensures { IfOk result (λ r. map event_of r.items ≡ events_of (view_script script.now)) }
{
    let stmts = script.body.as_slice();
    whole(
        alloc,
        Region::Script(are_directed(stmts)),
        script.span,
        Work::Statements(stmts),
    )
}

/// The events of a module: exactly `events_of` of its tree. It fails only where memory runs out.
pub fn module_events(alloc: Global, module: &Module) -> Result<Vec<Event<'_>>, AllocError>
    ensures { IfOk result (λ r. map event_of r.items ≡ events_of (view_module «module».now)) }
{
    whole(
        alloc,
        Region::Module,
        module.span,
        Work::Items(module.body.as_slice()),
    )
}

/// The events of a script or a module: exactly `events_of` of its tree. It fails only where memory runs out.
pub fn program_events(alloc: Global, program: &Program) -> Result<Vec<Event<'_>>, AllocError>
    ensures { IfOk result (λ r. map event_of r.items ≡ events_of (view_program program.now)) }
{
    match program {
        Program::Module(x) => module_events(alloc, x),
        Program::Script(x) => script_events(alloc, x),
    }
}
