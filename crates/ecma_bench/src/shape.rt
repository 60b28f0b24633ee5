//! The shapes of text, and texts of them.

ghost use Rattle.std.specs.Prelude.{◌<◌, ◌≤◌, length, IfOk, string_len};

use crate::fault::Fault;
use std::alloc::{AllocError, Global};
use std::fmt;
use std::str::FromStr;

/// What a text is made of.
#[derive(Clone, Copy)]
pub enum Shape {
    /// Statements of many forms, one a line.
    Expressions,
    /// Statements of arrays in arrays, so many levels deep.
    Nests(u32),
    /// Assignments to array patterns in array patterns, so many levels deep.
    Patterns(u32),
}

impl FromStr for Shape {
    type Err = Fault;

    fn from_str(word: &str) -> Result<Shape, Fault> {
        match word {
            "expressions" => Ok(Shape::Expressions),
            "nests" => Ok(Shape::Nests(LEVELS)),
            "patterns" => Ok(Shape::Patterns(LEVELS)),
            _ => Err(Fault::Usage),
        }
    }
}

impl fmt::Display for Shape {
    fn fmt<W: fmt::Write>(&self, f: &mut fmt::Formatter<W>) -> fmt::Result {
        f.write_str(match self {
            Shape::Expressions => "expressions",
            Shape::Nests(_) => "nests",
            Shape::Patterns(_) => "patterns",
        })
    }
}

/// How deep a nest is where nothing else is said. A parser takes at most 1,000 levels.
const LEVELS: u32 = 900;

/// The statements of the first shape.
const EXPRESSIONS: &str = "var count = 0, name = 'first', rest;
total = price * amount + tax / 100 - discount % 7;
power = -base + 2 ** exponent ** (half - 1) - 10n;
flags = mask & ~bits | low ^ high << 3 >> shift >>> 1;
inRange = low <= value && value < high || !(value > 0) && value >= floor;
same = left == right || left != other && left === right || left !== null;
kind = typeof value === 'object' ? value instanceof Error ? 'error' : 'object' : void 0;
found = 'key' in table ? table.key : fallback ?? settings.defaults;
list.items[index + 1].name.length;
this.state.handlers[event](target, ...others, true)(done).next;
point = new Point(10, 2.5e3).scaled(0x1F, 0b101, 0o17);
empty = new Map, other = new registry.types.Entry(id, { owner: this });
delete cache[keys[0]], cache.size--, ++cache.version;
sum += 1, sum -= step, sum *= 2, sum /= 3, sum %= 5, sum **= 2;
bits <<= 1, bits >>= 2, bits >>>= 3, bits &= mask, bits |= flag, bits ^= key;
ready &&= check(), ready ||= retry, ready ??= false;
matrix = [[1, 0, 0], [0, 1, 0], [0, 0, 1], , ...rows];
options = { depth: 3, 'line width': 100, 10: ten, [field]: value, shorthand, ...defaults };
[first, second = 'two', , ...others] = pair;
[head, { tail: last = end, size }] = node;
({ x, y: [dx, dy = 0], z: { w } = {}, 'k': box.value, ...remainder } = origin);
message = \"tab\\t, line\\n, quote\\\", \\x41 and \\u{1F600}\" + 'it\\'s ' + name;
(a, b, c), (((nested))), [(x)], ((y) ? (z) : (w));
var width = 640, height = width * 3 / 4, area = width * height;
";

/// A statement: so many brackets around an inner text, and a tail behind them.
fn nest(alloc: Global, levels: u32, inner: &str, tail: &str) -> Result<String, AllocError>
    requires { 0 < length tail.now }
    ensures { IfOk result (λ text. 0 < string_len text) }
{
    let mut text = String::new(alloc);
    for _ in 0..levels {
        text.push('[')?;
    }
    text.push_str(inner)?;
    for _ in 0..levels {
        text.push(']')?;
    }
    text.push_str(tail)?;
    Ok(text)
}

/// A piece of text over and over, until it is at least so long.
fn repeated(alloc: Global, piece: &str, bytes: u32) -> Result<String, AllocError>
    requires { 0 < length piece.now }
    ensures { IfOk result (λ text. bytes ≤ string_len text) }
{
    let least = bytes as usize;
    let mut text = String::with_capacity(alloc, least.saturating_add(piece.len()))?;
    while text.len() < least {
        text.push_str(piece)?;
    }
    Ok(text)
}

impl Shape {
    /// A text of this shape, at least so many bytes long.
    pub fn text(self, alloc: Global, bytes: u32) -> Result<String, AllocError>
        ensures { IfOk result (λ text. bytes ≤ string_len text) }
    {
        match self {
            Shape::Expressions => repeated(alloc, EXPRESSIONS, bytes),
            Shape::Nests(levels) => {
                let statement = nest(alloc, levels, "", ";\n")?;
                repeated(alloc, statement.as_str(), bytes)
            }
            Shape::Patterns(levels) => {
                let statement = nest(alloc, levels, "a", " = b;\n")?;
                repeated(alloc, statement.as_str(), bytes)
            }
        }
    }
}
