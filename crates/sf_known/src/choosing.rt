//! The cheaper of two plans.

ghost use Rattle.std.specs.Prelude.{◌≡◌};
ghost use Rattle.sf_known.specs.Known.{cheaper};

use sf_polish::Expr;

/// Of two plans with their costs the cheaper one, and the first where they cost the same.
pub fn cheaper(first: Option<(Expr, u64)>, second: Option<(Expr, u64)>) -> Option<(Expr, u64)>
    ensures { result ≡ cheaper first second }
{
    match (first, second) {
        (None, other) => other,
        (Some(plan), None) => Some(plan),
        (Some(plan), Some(other)) => {
            if other.1 < plan.1 {
                Some(other)
            } else {
                Some(plan)
            }
        }
    }
}
