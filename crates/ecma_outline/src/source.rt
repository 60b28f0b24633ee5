//! A text whose faults are told: its places and what stands in it.

ghost use Rattle.std.specs.Prelude.{◌≡◌, ◌<◌, ◌^◌, true, false, IfOk, length};
ghost use Rattle.ecma_outline.specs.Outline.{outlined};
ghost use Rattle.ecma_outline.specs.Source as spec;

use crate::outline::{Lexeme, Open, Outline, count_at, lexeme_at, no_lexeme, open_at, outline_of};
use crate::parts::piece;
use ecma_estree_text::{Extras, Places};
use std::alloc::{AllocError, Global};
use std::marker::Model;

/// A text with its lines and its tokens, which faults are told of. Contracts see the text.
#[derive(Drop)]
pub struct Source<'a> {
    places: Places<'a>,
    outline: Outline,
}

impl<'a> Model for Source<'a> {
    ghost use Rattle.ecma_estree_text.specs.Places.{Placed};
    ghost use Rattle.ecma_outline.specs.Outline.{IsOutline};

    ghost Value = { Placed };

    ghost view = { λ s. s.places };

    ghost invariant = { λ s. IsOutline s.places.text s.outline };
}

impl<'a> Source<'a> {
    /// Reads over a text once; what it keeps takes some 50 bytes for each byte of it. It fails only where memory runs out.
    pub fn new(alloc: Global, text: &'a str) -> Result<Source<'a>, AllocError>
        requires { length text.now < 2 ^ 32 }
        ensures { IfOk result
            (λ it. it ≡ record { text = text.now; has_locations = true; has_ranges = false }) }
    {
        let extras = Extras {
            locations: true,
            ranges: false,
        };
        Ok(Source {
            places: Places::new(alloc, text, extras)?,
            outline: outline_of(alloc, text)?,
        })
    }

    /// Its places.
    pub fn places(&self) -> &Places<'a>
        ensures { result.now ≡ self.now }
    {
        &self.places
    }

    /// Which token stands at an offset in bytes, or behind it.
    pub fn index(&self, place: usize) -> usize
        ensures { result ≡ spec.index (outlined self.now.text) self.now.text place }
    {
        let last = self.places.text().len();
        count_at(self.outline.counts.as_slice(), place.min(last))
    }

    /// A token by its number.
    pub fn lexeme(&self, n: usize) -> Lexeme
        ensures { result ≡ spec.lexeme (outlined self.now.text) n }
    {
        lexeme_at(self.outline.lexemes.as_slice(), n)
    }

    /// The token so many before one.
    pub fn lexeme_before(&self, n: usize, by: usize) -> Lexeme
        ensures { result ≡ spec.lexeme_before (outlined self.now.text) n by }
    {
        if by <= n {
            self.lexeme(n - by)
        } else {
            no_lexeme()
        }
    }

    /// The token behind one.
    pub fn lexeme_behind(&self, n: usize) -> Lexeme
        ensures { result ≡ spec.lexeme_behind (outlined self.now.text) n }
    {
        if n < self.outline.lexemes.len() {
            self.lexeme(n + 1)
        } else {
            no_lexeme()
        }
    }

    /// A bracket by its number; 0 is none.
    pub fn bracket_at(&self, n: usize) -> Open
        ensures { result ≡ spec.bracket_at (outlined self.now.text) n }
    {
        open_at(self.outline.opens.as_slice(), n)
    }

    /// The text of a token.
    pub fn spelled(&self, it: Lexeme) -> &'a str
        ensures { result.now ≡ spec.spelled self.now.text it }
    {
        piece(self.places.text(), it.start, it.end)
    }

    /// The text of a bracket, by its number.
    pub fn bracket(&self, n: usize) -> &'a str
        ensures { result.now ≡ spec.bracket self.now.text n }
    {
        let text = self.places.text();
        let at = self.bracket_at(n).at;
        if n == 0 || text.len() <= at {
            return "";
        }
        piece(text, at, at + 1)
    }
}
