//! Whether something was read that makes a program a module: what is read and then dropped makes none.

ghost use Rattle.std.specs.Prelude.{◌≡◌};

use std::alloc::Global;
use swc_ecma_parser_cursor::{Around, Cursor};

/// Whether something was.
pub fn found_module_item<P: Cursor>(alloc: Global, p: &mut P) -> bool
    ensures found { result ≡ (P.seen p.old).notes.found_module_item }
    ensures state { P.seen p.new ≡ P.seen p.old }
{
    let around = p.enter_body(alloc);
    let found = around.found_module_item;
    p.leave_body(around);
    found
}

/// Sets whether something was.
pub fn set_found_module_item<P: Cursor>(alloc: Global, p: &mut P, found: bool)
    ensures { P.seen p.new
        ≡ record (P.seen p.old)
        { notes = record (P.seen p.old).notes { found_module_item = found } } }
{
    let Around {
        labels,
        found_module_item: _,
    } = p.enter_body(alloc);
    p.leave_body(Around {
        labels,
        found_module_item: found,
    });
}
