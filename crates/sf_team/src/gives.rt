//! What a job comes to.

ghost use Rattle.std.specs.Prelude.{Option};

/// What a job comes to, when it is done by itself; or that it comes to nothing, for want of memory.
pub trait Gives<J, D> {
    ghost gives: { J → Option D → Type 0 };
}
