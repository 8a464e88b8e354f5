//! The law of pieces.

ghost use Rattle.sf_pieces.specs.Assembly.{PiecesMakeTrees};

/// Pieces with just the subproblems of a tree, each with its tag, are the tree in preorder when they stand in
/// the order of their first paths: none has a hole, and none has to be looked up.
pub fn pieces_make_trees()
    ensures { PiecesMakeTrees }
{}
