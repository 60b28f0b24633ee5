use ecma_events::{Event, Role};
use swc_ecma_parser_ast::{
    BlockStmt, CatchClause, ClassMember, Decorator, ExportSpecifier, ExprBox, ExprOrSpread,
    ImportSpecifier, MemberProp, ModuleItem, ObjectPatProp, Param, ParamOrTsParamProp, Pat, PatBox,
    PropName, PropOrSpread, Stmt, StmtBox, StmtList, SwitchCase, VarDeclarator,
};

/// What is yet to be walked over, or an event that is yet to come.
#[derive(Clone, Copy)]
pub enum Work<'a> {
    Event(Event<'a>),
    Expr(Role, &'a ExprBox),
    Exprs(&'a [ExprBox]),
    /// What `delete` is said of.
    Deleted(&'a ExprBox),
    Elements(&'a [Option<ExprOrSpread>]),
    Argument(&'a ExprOrSpread),
    Arguments(&'a [ExprOrSpread]),
    Property(&'a PropOrSpread),
    /// Properties of an object, and whether one `__proto__: value` was seen.
    Properties(bool, &'a [PropOrSpread]),
    Key(&'a PropName),
    Member(&'a MemberProp),
    Pat(Role, &'a PatBox),
    Pattern(Role, &'a Pat),
    Patterns(Role, &'a [Pat]),
    PatElements(Role, &'a [Option<PatBox>]),
    PatProperty(Role, &'a ObjectPatProp),
    PatProperties(Role, &'a [ObjectPatProp]),
    Param(&'a Param),
    Params(&'a [Param]),
    ConstructorParams(&'a [ParamOrTsParamProp]),
    Decorator(&'a Decorator),
    Decorators(&'a [Decorator]),
    ClassMember(&'a ClassMember),
    Members(&'a [ClassMember]),
    Stmt(&'a StmtBox),
    Statement(&'a Stmt),
    Statements(&'a [Stmt]),
    StmtList(&'a StmtList),
    Block(&'a BlockStmt),
    Case(&'a SwitchCase),
    Cases(&'a [SwitchCase]),
    Catch(&'a CatchClause),
    Declarator(Role, &'a VarDeclarator),
    Declarators(Role, &'a [VarDeclarator]),
    Item(&'a ModuleItem),
    Items(&'a [ModuleItem]),
    Import(&'a ImportSpecifier),
    Imports(&'a [ImportSpecifier]),
    /// Names that are exported, and whether they are of this module.
    Exports(bool, &'a [ExportSpecifier]),
}
