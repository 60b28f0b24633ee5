use swc_ecma_parser_ast::{
    BlockStmt, CatchClause, ClassMember, Decl, Decorator, ExportSpecifier, ExprBox, ExprOrSpread,
    Function, Ident, ImportSpecifier, ModuleItem, ObjectPatProp, Param, ParamOrTsParamProp, Pat,
    PatBox, PrivateName, PropOrSpread, Stmt, StmtBox, Str, SwitchCase, Tpl, TplElement,
    VarDeclarator,
};

/// What is yet to be written. The `bool` of a list says whether its first part has a comma before it: not where it is the first of all.
#[derive(Clone, Copy)]
pub enum Work<'a> {
    End,
    OpenList,
    EndList,
    Nothing,
    /// The fields that stand behind the others of a script or module.
    Further,
    Key(&'static str),
    Word(&'static str, &'static str),
    Bool(&'static str, bool),
    Name(&'a Ident),
    PrivateName(&'a PrivateName),
    Str(&'a Str),
    /// The field that a string has as a directive.
    Directive(&'a Str),
    Expr(&'a ExprBox),
    /// What a link of an optional chain is a link of.
    Link(&'a ExprBox),
    Template(&'a Tpl),
    Quasi(&'a TplElement),
    /// The texts of a template.
    Quasis(&'a [TplElement], bool),
    Exprs(&'a [ExprBox], bool),
    Elements(&'a [Option<ExprOrSpread>], bool),
    Argument(&'a ExprOrSpread),
    Arguments(&'a [ExprOrSpread], bool),
    Property(&'a PropOrSpread),
    Properties(&'a [PropOrSpread], bool),
    Attribute(&'a PropOrSpread),
    /// The attributes of an import.
    Attributes(&'a [PropOrSpread], bool),
    Pat(&'a PatBox),
    Pattern(&'a Pat),
    Patterns(&'a [Pat], bool),
    PatElements(&'a [Option<PatBox>], bool),
    PatProperty(&'a ObjectPatProp),
    PatProperties(&'a [ObjectPatProp], bool),
    Params(&'a [Param], bool),
    ConstructorParams(&'a [ParamOrTsParamProp], bool),
    Decorator(&'a Decorator),
    Decorators(&'a [Decorator], bool),
    /// A function without a name that is an expression, from an offset on.
    Function(&'a Function, usize),
    /// How the value of a method begins that is no function by itself, between two offsets.
    Accessor(usize, usize),
    /// How the body of a class begins, between two offsets.
    ClassBody(usize, usize),
    Member(&'a ClassMember),
    Members(&'a [ClassMember], bool),
    Stmt(&'a StmtBox),
    Statement(&'a Stmt),
    Statements(&'a [Stmt], bool),
    /// Statements that may be directives.
    Directives(&'a [Stmt], bool),
    Block(&'a BlockStmt),
    /// The body of a function.
    Body(&'a BlockStmt),
    Case(&'a SwitchCase),
    Cases(&'a [SwitchCase], bool),
    Catch(&'a CatchClause),
    Declarator(&'a VarDeclarator),
    Declarators(&'a [VarDeclarator], bool),
    Declaration(&'a Decl),
    Item(&'a ModuleItem),
    Items(&'a [ModuleItem], bool),
    /// Items that may be directives.
    DirectiveItems(&'a [ModuleItem], bool),
    Imports(&'a [ImportSpecifier], bool),
    Exports(&'a [ExportSpecifier], bool),
}
