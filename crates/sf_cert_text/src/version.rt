//! The versions of a certificate's text.

/// How a certificate stands in a text. In the first version a closed subproblem is a `C` alone; in the later
/// ones a letter names the part of the bound that closes it, and in the third paths stand before the tree.
#[derive(Clone, Copy)]
pub enum Version {
    One,
    Two,
    Three,
}
