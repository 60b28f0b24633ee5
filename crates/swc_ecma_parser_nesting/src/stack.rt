//! What is open around a place.

ghost use Rattle.std.specs.Prelude.{◌≡◌, ◌<◌, ◌≤◌, [], ◌∷◌, length};
ghost use Rattle.swc_ecma_parser_nesting.specs.Stacked as read;

use std::marker::Model;

/// What is open. The `bool` of a function or a class says whether it stands where an operand must come.
#[derive(Clone, Copy, Debug, PartialEq, Eq)]
pub enum Open {
    /// Nothing.
    Nothing,
    /// The parenthesis of `if`, `while`, `for` or `with`.
    Head,
    /// Any other parenthesis.
    Paren,
    /// `[`
    Bracket,
    /// A block.
    Block,
    /// An object.
    Object,
    /// The body of a method or an accessor.
    Method,
    /// `${`
    Substitution,
    /// `?`, before its `:`.
    Question,
    /// A function before its body.
    Function(bool),
    /// The body of a function.
    FunctionBody(bool),
    /// A class before its body.
    Class(bool),
    /// The body of a class.
    ClassBody(bool),
}

#[tactic(auto, unfolding(crate::specs::Stacked::is_question))]
fn is_question(entry: Open) -> bool
    ensures { result ≡ read.is_question entry }
{
    matches!(entry, Open::Question)
}

/// What stands on top of so many places.
fn top_at(places: &[Open], count: usize) -> Open
    requires { count ≤ length places.now }
    ensures { result ≡ read.top_of (read.stacked places.now count) }
{
    if count == 0 {
        Open::Nothing
    } else {
        places[count - 1]
    }
}

/// How many of so many places stand below each `?` on top.
fn below_questions(places: &[Open], count: usize) -> usize
    requires { count ≤ length places.now }
    ensures left { read.stacked places.now result
        ≡ read.past_questions (read.stacked places.now count) }
    ensures fewer { result ≤ count }
{
    let mut left = count;
    while left > 0 && is_question(places[left - 1]) {
        left -= 1;
    }
    left
}

/// How many brackets may be open.
pub const LIMIT: usize = 4096;

/// Room for `LIMIT` entries and one more, so that the first that is too many can be seen. It takes no memory.
const ROOM: usize = 4097;

/// What is open, the innermost on top. Contracts see it from the top.
#[derive(Drop)]
pub(crate) struct Stack {
    places: [Open; ROOM],
    count: usize,
}

impl Model for Stack {
    ghost use Rattle.std.specs.Prelude.{List, length, ◌≤◌, ◌≡◌};
    ghost use Rattle.swc_ecma_parser_nesting.specs.declared.stack.Open.{Open};
    ghost use Rattle.swc_ecma_parser_nesting.specs.Stacked.{stacked, IsRoom};

    ghost Value = { List Open };

    ghost use Rattle.std.specs.Coded.{coded_list};
    ghost use Rattle.swc_ecma_parser_nesting.specs.contracts.stack.Open as entry;

    ghost coded = { coded_list entry.the_row.coded };

    ghost view = { λ s. stacked s.places s.count };

    ghost invariant = { λ s. IsRoom s.places s.count };
}

impl Stack {
    /// Nothing.
    pub fn new() -> Stack
        ensures { result ≡ [] }
    {
        Stack {
            places: [Open::Nothing; ROOM],
            count: 0,
        }
    }

    /// How many are open.
    pub fn len(&self) -> usize
        ensures { result ≡ length self.now }
    {
        self.count
    }

    /// The innermost.
    pub fn top(&self) -> Open
        ensures { result ≡ read.top_of self.now }
    {
        top_at(&self.places, self.count)
    }

    /// One more is open.
    pub fn push(&mut self, entry: Open)
        requires { length self.old ≤ 4096 }
        ensures { self.new ≡ entry ∷ self.old }
    {
        self.places[self.count] = entry;
        self.count += 1;
    }

    /// The innermost is closed.
    pub fn pop(&mut self) -> Open
        ensures top { result ≡ read.top_of self.old }
        ensures rest { self.new ≡ read.below_top self.old }
    {
        let top = self.top();
        self.count = self.count.saturating_sub(1);
        top
    }

    /// Goes past each `?` that stands on top.
    pub fn drop_questions(&mut self)
        ensures { self.new ≡ read.past_questions self.old }
    {
        self.count = below_questions(&self.places, self.count);
    }

    /// The innermost but for each `?` that stands on top.
    pub fn unquestioned(&self) -> Open
        ensures { result ≡ read.top_of (read.past_questions self.now) }
    {
        top_at(&self.places, below_questions(&self.places, self.count))
    }

    /// An equal one.
    pub fn copy(&self) -> Stack
        ensures { result ≡ self.now }
    {
        Stack {
            places: self.places,
            count: self.count,
        }
    }
}
