ghost use Rattle.std.specs.Prelude.{◌≡◌, map};
ghost use Rattle.swc_ecma_parser_ast.specs.View.{view_module, view_module_export_name, view_module_item, view_program};

use crate::Ast;
use std::alloc::{AllocError, Global};
use swc_ecma_parser_ast::{
    Atom, Ident, Module, ModuleExportName, ModuleItem, Program, Script, Span, Spanned, Stmt, Str,
};
use swc_ecma_parser_trees::BuildsItem;

impl BuildsItem for Ast {
    ghost use Rattle.swc_ecma_parser_model.specs.Tree as tree;

    type Item = ModuleItem;

    type ModuleName = ModuleExportName;

    type Module = Module;

    type Program = Program;

    ghost item_of = { view_module_item };

    ghost module_name_of = { view_module_export_name };

    ghost module_of = { view_module };

    ghost program_of = { view_program };

    fn stmt_item(alloc: Global, stmt: Stmt) -> Result<ModuleItem, AllocError> {
        Ok(ModuleItem::Stmt(stmt))
    }

    #[tactic(auto, using(crate::proofs::Kind::kind_module_decl))]
    fn item_stmt(item: ModuleItem) -> Stmt {
        match item {
            ModuleItem::Stmt(stmt) => stmt,
            ModuleItem::ModuleDecl(_) => unreachable!(),
        }
    }

    fn word_name(alloc: Global, ident: Ident) -> Result<ModuleExportName, AllocError> {
        Ok(ModuleExportName::Ident(ident))
    }

    fn str_name(alloc: Global, str: Str) -> Result<ModuleExportName, AllocError> {
        Ok(ModuleExportName::Str(str))
    }

    fn module(span: Span, body: Vec<ModuleItem>, shebang: Option<Atom>) -> Module
        ensures { view_module result
            ≡ tree.module_program span (tree.listed (map view_module_item body.items)) shebang }
    {
        Module {
            span,
            body,
            shebang,
        }
    }

    fn script_program(script: Script) -> Program {
        Program::Script(script)
    }

    fn module_program(whole: Module) -> Program {
        Program::Module(whole)
    }

    fn item_span(item: &ModuleItem) -> Span {
        item.span()
    }

    #[tactic(auto, using(crate::proofs::Kind::kind_module_decl, crate::proofs::Kind::stmt_no_module_decl))]
    fn is_module_decl(item: &ModuleItem) -> bool {
        match item {
            ModuleItem::ModuleDecl(_) => true,
            ModuleItem::Stmt(_) => false,
        }
    }

    #[tactic(auto, using(crate::proofs::Kind::module_decl_no_directive))]
    fn is_use_strict_item(item: &ModuleItem) -> bool {
        match item {
            ModuleItem::Stmt(stmt) => stmt.is_use_strict(),
            ModuleItem::ModuleDecl(_) => false,
        }
    }

    #[tactic(auto, using(crate::proofs::Kind::module_decl_no_string))]
    fn is_string_item(item: &ModuleItem) -> bool {
        match item {
            ModuleItem::Stmt(stmt) => stmt.can_precede_directive(),
            ModuleItem::ModuleDecl(_) => false,
        }
    }
}
