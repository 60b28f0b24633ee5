//! What is asked of a parser.

use swc_ecma_parser_input::{Context, EsSyntax};

/// One of the parser's entries.
#[derive(Clone, Copy, Debug, PartialEq, Eq)]
pub enum Entry {
    Script,
    Module,
    Program,
    Item,
    Statement,
    ListItem,
}

/// Each of them.
pub const ENTRIES: [Entry; 6] = [
    Entry::Script,
    Entry::Module,
    Entry::Program,
    Entry::Item,
    Entry::Statement,
    Entry::ListItem,
];

/// Which code a text begins in.
#[derive(Clone, Copy, Debug, PartialEq, Eq)]
pub enum Code {
    /// That of a script.
    Script,
    /// Code that can turn out to be a module's.
    Undecided,
    /// That of a module.
    Module,
}

/// An entry, how often it is asked, in which settings and code and within how many levels, and whether its trees are printed.
#[derive(Clone, Copy)]
pub struct Asked {
    pub entry: Entry,
    pub top_level: bool,
    pub times: usize,
    pub settings: EsSyntax,
    pub code: Code,
    pub limit: u32,
    pub prints: bool,
}

impl Entry {
    /// The entry that a word names.
    pub fn named(word: &str) -> Option<Entry> {
        match word {
            "parse_script" => Some(Entry::Script),
            "parse_module" => Some(Entry::Module),
            "parse_program" => Some(Entry::Program),
            "parse_module_item" => Some(Entry::Item),
            "parse_stmt" => Some(Entry::Statement),
            "parse_stmt_list_item" => Some(Entry::ListItem),
            _ => None,
        }
    }
}

impl Code {
    /// The code that a word names.
    pub fn named(word: &str) -> Option<Code> {
        match word {
            "script" => Some(Code::Script),
            "undecided" => Some(Code::Undecided),
            "module" => Some(Code::Module),
            _ => None,
        }
    }

    /// The context in which it begins.
    pub fn context(self) -> Context {
        let mut context = Context::default();
        match self {
            Code::Script => {}
            Code::Undecided => context.can_be_module = true,
            Code::Module => context.module = true,
        }
        context
    }
}

/// Turns on the setting that a word names, if it names one.
pub fn turn_on(settings: &mut EsSyntax, word: &str) -> bool {
    match word {
        "decorators" => settings.decorators = true,
        "decorators_before_export" => settings.decorators_before_export = true,
        "export_default_from" => settings.export_default_from = true,
        "import_attributes" => settings.import_attributes = true,
        "allow_return_outside_function" => settings.allow_return_outside_function = true,
        "auto_accessors" => settings.auto_accessors = true,
        "explicit_resource_management" => settings.explicit_resource_management = true,
        _ => return false,
    }
    true
}
