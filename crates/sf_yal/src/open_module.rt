//! The module that is open.

ghost use Rattle.std.specs.Prelude.{◌≡◌};
ghost use Rattle.sf_yal.specs.Reading.{module_begun};

use sf_lex::BoxSize;

/// The section of a module in which its next statement stands.
#[derive(Clone, Copy, PartialEq, Eq)]
pub enum Section {
    /// Outside of its lists.
    Body,
    /// A list IOLIST.
    Terminals,
    /// A list NETWORK.
    Network,
}

/// What its statements have said of the module so far: whether it has a type, whether that is PARENT,
/// whether it has a list, and its box.
#[derive(Clone, Copy)]
pub struct OpenModule {
    pub section: Section,
    pub is_typed: bool,
    pub is_parent: bool,
    pub has_list: bool,
    pub size: Option<BoxSize>,
}

impl OpenModule {
    /// A module of which nothing is said.
    pub fn new() -> OpenModule
        ensures { result ≡ module_begun }
    {
        OpenModule {
            section: Section::Body,
            is_typed: false,
            is_parent: false,
            has_list: false,
            size: None,
        }
    }
}
