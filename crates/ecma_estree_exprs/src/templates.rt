//! Templates.

ghost use Rattle.std.specs.Prelude.{OnOk};
ghost use Rattle.ecma_estree_writer.specs.Estree.{json, plain};
ghost use Rattle.ecma_estree_writer.specs.Writing.{Writes};
ghost use Rattle.swc_ecma_parser_ast.specs.View.{view_tagged_tpl, view_tpl};

use ecma_estree_writer::{Work, Writer};
use std::alloc::AllocError;
use swc_ecma_parser_ast::{TaggedTpl, Tpl};

/// Writes a template.
pub fn write_template<'a>(w: &mut Writer<'a>, x: &'a Tpl) -> Result<(), AllocError>
    ensures { OnOk result (Writes w.old w.new (json w.old.source plain (view_tpl x.now))) }
{
    w.open("TemplateLiteral", x.span)?;
    w.list_key("expressions")?;
    w.push(Work::End)?;
    w.push(Work::EndList)?;
    w.push(Work::Quasis(x.quasis.as_slice(), true))?;
    w.push(Work::OpenList)?;
    w.push(Work::Key("quasis"))?;
    w.push(Work::EndList)?;
    w.push(Work::Exprs(x.exprs.as_slice(), true))
}

/// Writes a template behind its tag.
pub fn write_tagged_template<'a>(w: &mut Writer<'a>, x: &'a TaggedTpl) -> Result<(), AllocError>
    ensures { OnOk result (Writes w.old w.new (json w.old.source plain (view_tagged_tpl x.now))) }
{
    w.open("TaggedTemplateExpression", x.span)?;
    w.key("tag")?;
    w.push(Work::End)?;
    w.push(Work::Template(&x.tpl))?;
    w.push(Work::Key("quasi"))?;
    w.push(Work::Expr(&x.tag))
}
