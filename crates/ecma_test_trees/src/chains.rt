//! Chains, which no limit on levels bounds: on the left, and of `else if`.

use std::alloc::{AllocError, Global};
use std::fmt::Debug;
use std::test::Fail;
use swc_ecma_parser_ast::{
    Atom, BinExpr, BinaryOp, BytePos, CallExpr, Callee, EmptyStmt, Expr, ExprBox, Ident, IfStmt,
    MemberExpr, MemberProp, OptCall, OptChainBase, OptChainExpr, Span, Stmt, StmtBox, TaggedTpl,
    ThisExpr, Tpl, TplElement,
};

/// The span of all but what a chain ends with.
const SPAN: Span = Span {
    lo: BytePos(0),
    hi: BytePos(1),
};

/// What the links of a chain on the left are.
#[derive(Clone, Copy)]
enum Kind {
    Bin,
    Member,
    Call,
    Tagged,
    ChainMember,
    ChainCall,
}

/// All of them.
const KINDS: [Kind; 6] = [
    Kind::Bin,
    Kind::Member,
    Kind::Call,
    Kind::Tagged,
    Kind::ChainMember,
    Kind::ChainCall,
];

fn this(alloc: Global) -> Result<ExprBox, AllocError> {
    ExprBox::new(alloc, Expr::This(ThisExpr { span: SPAN }))
}

fn empty(alloc: Global) -> Result<StmtBox, AllocError> {
    StmtBox::new(alloc, Stmt::Empty(EmptyStmt { span: SPAN }))
}

/// A member of the rest of a chain.
fn member(alloc: Global, obj: ExprBox) -> Result<MemberExpr, AllocError> {
    Ok(MemberExpr {
        span: SPAN,
        obj,
        prop: MemberProp::Ident(Ident {
            span: SPAN,
            sym: Atom::new(alloc, "a")?,
        }),
    })
}

/// A template of one text, behind the rest of a chain.
fn tagged(alloc: Global, tag: ExprBox) -> Result<Expr, AllocError> {
    let text = TplElement {
        span: SPAN,
        tail: true,
        cooked: None,
        raw: Atom::new(alloc, "b")?,
    };
    let tpl = Tpl {
        span: SPAN,
        exprs: Vec::new(alloc),
        quasis: vec![in alloc; text]?,
    };
    Ok(Expr::TaggedTpl(TaggedTpl {
        span: SPAN,
        tag,
        tpl: tpl.boxed(alloc)?,
    }))
}

/// A link of an optional chain.
fn link(alloc: Global, optional: bool, base: OptChainBase) -> Result<Expr, AllocError> {
    Ok(Expr::OptChain(OptChainExpr {
        span: SPAN,
        optional,
        base: base.boxed(alloc)?,
    }))
}

/// A chain on the left with one link more.
fn longer(alloc: Global, chain: ExprBox, kind: Kind) -> Result<Expr, AllocError> {
    match kind {
        Kind::Bin => Ok(Expr::Bin(BinExpr {
            span: SPAN,
            op: BinaryOp::Add,
            left: chain,
            right: this(alloc)?,
        })),
        Kind::Member => Ok(Expr::Member(member(alloc, chain)?)),
        Kind::Call => Ok(Expr::Call(CallExpr {
            span: SPAN,
            callee: Callee::Expr(chain),
            args: Vec::new(alloc),
        })),
        Kind::Tagged => tagged(alloc, chain),
        Kind::ChainMember => link(alloc, true, OptChainBase::Member(member(alloc, chain)?)),
        Kind::ChainCall => {
            let call = OptCall {
                span: SPAN,
                callee: chain,
                args: Vec::new(alloc),
            };
            link(alloc, false, OptChainBase::Call(call))
        }
    }
}

/// A chain on the left of so many links, which ends with a node that begins at a place.
fn chain(alloc: Global, kind: Kind, links: u32, low: u32) -> Result<ExprBox, AllocError> {
    let span = Span {
        lo: BytePos(low),
        hi: BytePos(9),
    };
    let mut chain = ExprBox::new(alloc, Expr::This(ThisExpr { span }))?;
    for _ in 0..links {
        chain = ExprBox::new(alloc, longer(alloc, chain, kind)?)?;
    }
    Ok(chain)
}

/// As `chain`, of `else if`.
fn branches(alloc: Global, links: u32, low: u32) -> Result<StmtBox, AllocError> {
    let span = Span {
        lo: BytePos(low),
        hi: BytePos(9),
    };
    let mut chain = StmtBox::new(alloc, Stmt::Empty(EmptyStmt { span }))?;
    for _ in 0..links {
        let link = Stmt::If(IfStmt {
            span: SPAN,
            test: this(alloc)?,
            cons: empty(alloc)?,
            alt: Some(chain),
        });
        chain = StmtBox::new(alloc, link)?;
    }
    Ok(chain)
}

/// Whether two chains on the left, of so many links and with such ends, are equal.
fn are_equal(
    alloc: Global,
    kind: Kind,
    left: (u32, u32),
    right: (u32, u32),
) -> Result<bool, AllocError> {
    Ok(chain(alloc, kind, left.0, left.1)? == chain(alloc, kind, right.0, right.1)?)
}

/// As `are_equal`, of `else if`.
fn are_equal_branches(
    alloc: Global,
    left: (u32, u32),
    right: (u32, u32),
) -> Result<bool, AllocError> {
    Ok(branches(alloc, left.0, left.1)? == branches(alloc, right.0, right.1)?)
}

/// Two chains and whether they are equal: how many links each has, and where what it ends with begins.
const PAIRS: [((u32, u32), (u32, u32), bool); 4] = [
    ((100_000, 1), (100_000, 1), true),
    ((100_000, 1), (100_000, 2), false),
    ((20, 1), (19, 1), false),
    ((19, 1), (20, 1), false),
];

#[test]
fn chains_are_compared(rt: HostRuntime) -> Result<(), Fail> {
    let alloc = rt.alloc();
    for (left, right, wanted) in PAIRS {
        for kind in KINDS {
            assert!(rt; are_equal(alloc, kind, left, right)? == wanted);
        }
        assert!(rt; are_equal_branches(alloc, left, right)? == wanted);
    }
    Ok(())
}

/// How the links of each kind are printed, one behind the other.
const BIN: &str = "BinExpr { span: Span { lo: BytePos(0), hi: BytePos(1) }, op: Add, \
    right: ExprBox { node: Node { inner: Expr(This(ThisExpr { span: Span { lo: BytePos(0), hi: BytePos(1) } })) } }, .. }, ";

const MEMBER: &str = "MemberExpr { span: Span { lo: BytePos(0), hi: BytePos(1) }, \
    prop: Ident(Ident { span: Span { lo: BytePos(0), hi: BytePos(1) }, sym: Atom { text: \"a\" } }), .. }, ";

const CALL: &str = "CallExpr { span: Span { lo: BytePos(0), hi: BytePos(1) }, args: [], .. }, ";

const TAGGED: &str = "TaggedTpl { span: Span { lo: BytePos(0), hi: BytePos(1) }, \
    tpl: Tpl { span: Span { lo: BytePos(0), hi: BytePos(1) }, exprs: [], \
    quasis: [TplElement { span: Span { lo: BytePos(0), hi: BytePos(1) }, tail: true, cooked: None, raw: Atom { text: \"b\" } }] }, .. }, ";

const CHAIN_MEMBER: &str =
    "OptChainExpr { span: Span { lo: BytePos(0), hi: BytePos(1) }, optional: true, \
    base: MemberExpr { span: Span { lo: BytePos(0), hi: BytePos(1) }, \
    prop: Ident(Ident { span: Span { lo: BytePos(0), hi: BytePos(1) }, sym: Atom { text: \"a\" } }), .. } }, ";

const CHAIN_CALL: &str =
    "OptChainExpr { span: Span { lo: BytePos(0), hi: BytePos(1) }, optional: false, \
    base: OptCall { span: Span { lo: BytePos(0), hi: BytePos(1) }, args: [], .. } }, ";

const IF: &str = "IfStmt { span: Span { lo: BytePos(0), hi: BytePos(1) }, \
    test: ExprBox { node: Node { inner: Expr(This(ThisExpr { span: Span { lo: BytePos(0), hi: BytePos(1) } })) } }, \
    cons: StmtBox { node: Node { inner: Stmt(Empty(EmptyStmt { span: Span { lo: BytePos(0), hi: BytePos(1) } })) } }, .. }, ";

/// How the links of a kind are printed.
fn printed(kind: Kind) -> &'static str {
    match kind {
        Kind::Bin => BIN,
        Kind::Member => MEMBER,
        Kind::Call => CALL,
        Kind::Tagged => TAGGED,
        Kind::ChainMember => CHAIN_MEMBER,
        Kind::ChainCall => CHAIN_CALL,
    }
}

/// What stands before the links of a chain on the left, and behind them.
const EXPRS: (&str, &str) = (
    "ExprBox { node: Node [",
    "Expr(This(ThisExpr { span: Span { lo: BytePos(1), hi: BytePos(9) } }))] }",
);

/// As `EXPRS`, of `else if`.
const STMTS: (&str, &str) = (
    "StmtBox { node: Node [",
    "Stmt(Empty(EmptyStmt { span: Span { lo: BytePos(1), hi: BytePos(9) } }))] }",
);

/// Whether a chain is printed as so many links between two texts.
fn is_printed<T: Debug>(
    alloc: Global,
    chain: &T,
    ends: (&str, &str),
    link: &str,
    links: u32,
) -> Result<bool, AllocError> {
    let mut wanted = String::new(alloc);
    wanted.push_str(ends.0)?;
    for _ in 0..links {
        wanted.push_str(link)?;
    }
    wanted.push_str(ends.1)?;
    let found = format!(in alloc; "{chain:?}")?;
    Ok(found == wanted)
}

#[test]
fn chains_are_printed_link_by_link(rt: HostRuntime) -> Result<(), Fail> {
    let alloc = rt.alloc();
    for links in [1, 2, 100_000] {
        for kind in KINDS {
            let chain = chain(alloc, kind, links, 1)?;
            assert!(rt; is_printed(alloc, &chain, EXPRS, printed(kind), links)?);
        }
        let chain = branches(alloc, links, 1)?;
        assert!(rt; is_printed(alloc, &chain, STMTS, IF, links)?);
    }
    Ok(())
}

/// How many bytes a chain takes in print that is indented.
fn indented(alloc: Global, links: u32) -> Result<usize, AllocError> {
    let chain = chain(alloc, Kind::Bin, links, 1)?;
    Ok(format!(in alloc; "{chain:#?}")?.len())
}

#[test]
fn indented_chains_grow_by_the_same_for_each_link(rt: HostRuntime) -> Result<(), Fail> {
    let alloc = rt.alloc();
    let short = indented(alloc, 1_000)?;
    let middle = indented(alloc, 2_000)?;
    let long = indented(alloc, 3_000)?;
    assert!(rt; middle.saturating_sub(short) == long.saturating_sub(middle));
    assert!(rt; long < short.saturating_mul(4));
    Ok(())
}
