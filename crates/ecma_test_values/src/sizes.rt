//! How large texts, tokens and faults are, in bytes: each rule answers a fault in the place of a tree, so none may grow unseen.

use swc_ecma_parser_common::Atom;
use swc_ecma_parser_error::{Error, SyntaxError};
use swc_ecma_parser_token::{Token, TokenAndSpan};

const _: () = prove!(size_of::<Atom>() == 24);

const _: () = prove!(size_of::<SyntaxError>() == 16);

const _: () = prove!(size_of::<Error>() == 24);

const _: () = prove!(size_of::<Token>() == 64);

const _: () = prove!(size_of::<TokenAndSpan>() == 80);
