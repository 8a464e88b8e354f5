//! Thresholds that fall with the trials that are left.

ghost use Rattle.std.specs.Prelude.{◌≡◌, ◌≤◌, ◌*◌, ◌/◌};

/// Of a number the part that is left where so many of all trials are. No product exceeds 64 bits.
pub fn part_left(number: u64, trials: u32, left: u32) -> u64
    requires some { 1 ≤ trials }
    requires few { left ≤ trials }
    ensures { result ≡ number * left / trials }
{
    let (trials, left) = (u64::from(trials), u64::from(left));
    number / trials * left + number % trials * left / trials
}

/// By how much the cost may rise where so many of all trials are left: less by the square of what is left.
pub fn rise(height: u64, trials: u32, left: u32, blocks: u16) -> u64
    requires some { 1 ≤ trials }
    requires few { left ≤ trials }
    requires blocks { 1 ≤ blocks }
{
    part_left(part_left(height, trials, left), trials, left) / (2 * u64::from(blocks))
}
