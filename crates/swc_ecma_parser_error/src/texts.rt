//! What a fault says to a person.

use crate::error::Error;
use crate::kind::SyntaxError;
use std::fmt;

impl fmt::Display for SyntaxError {
    #[cycle(display)]
    fn fmt<W: fmt::Write>(&self, f: &mut fmt::Formatter<W>) -> fmt::Result {
        match self {
            SyntaxError::Expected(texts) => {
                let wanted = &texts.get().wanted;
                let found = &texts.get().found;
                write!(f, "Expected '{wanted}', got '{found}'")
            }
            SyntaxError::Unexpected(texts) => {
                let expected = &texts.get().wanted;
                let got = &texts.get().found;
                write!(f, "Unexpected token '{got}'. Expected {expected}")
            }
            SyntaxError::WithLabel(labelled) => {
                let inner = &labelled.get().inner;
                write!(f, "{inner}")
            }
            SyntaxError::ExportBindingIsString => write!(
                f,
                "A string literal cannot be used as an exported binding without `from`."
            ),
            SyntaxError::TopLevelAwaitInScript => write!(
                f,
                "top level await is only allowed in module"
            ),
            SyntaxError::ImportMetaInScript => write!(
                f,
                "'import.meta' cannot be used outside of module code."
            ),
            SyntaxError::AwaitInFunction => write!(f, "await isn't allowed in non-async function"),
            SyntaxError::InvalidIdentInAsync => write!(
                f,
                "`await` cannot be used as an identifier in an async context"
            ),
            SyntaxError::ConstDeclarationsRequireInitialization => write!(
                f,
                "'const' declarations must be initialized"
            ),
            SyntaxError::TrailingCommaInsideImport => write!(
                f,
                "Trailing comma is disallowed inside import(...) arguments"
            ),
            SyntaxError::ExpectedIdent => write!(f, "Expected ident"),
            SyntaxError::ImportExportInScript => write!(
                f,
                "'import', and 'export' cannot be used outside of module code"
            ),
            SyntaxError::ImportBindingIsString(_) => write!(
                f,
                "A string literal cannot be used as an imported binding."
            ),
            other => {
                let name = other.name();
                write!(f, "{name}")
            }
        }
    }
}

impl fmt::Display for Error {
    #[cycle(display)]
    fn fmt<W: fmt::Write>(&self, f: &mut fmt::Formatter<W>) -> fmt::Result {
        let kind = &self.kind;
        write!(f, "{kind}")
    }
}

impl std::error::Error for Error {}
