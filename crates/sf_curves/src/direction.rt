//! The two directions in which rooms are joined.

ghost use Rattle.std.specs.Prelude.{◌≡◌};
ghost use Rattle.sf_curves.specs.Direction.{token_in};

use sf_polish::Token;

/// How two rooms are joined: the right one beside the left, or the upper one above the lower.
#[derive(Clone, Copy)]
pub enum Direction {
    Beside,
    Above,
}

/// The operator that joins in this direction.
pub fn operator(direction: Direction) -> Token
    ensures { result ≡ token_in direction }
{
    match direction {
        Direction::Beside => Token::Beside,
        Direction::Above => Token::Above,
    }
}
