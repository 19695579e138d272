ghost use Rattle.std.specs.Prelude.{◌<◌, ◌≤◌};
ghost use Rattle.tree_base.specs.Limits.{greatest_duration};

/// A number of microseconds with 39 decimal places, of which 20 stand in `upper` and 19 in `lower`.
#[derive(Drop)]
pub struct FixedPoint {
    pub whole: u64,
    pub upper: u128,
    pub lower: u128,
    ghost whole_in_range: { whole ≤ greatest_duration },
    ghost upper_in_range: { upper < 100000000000000000000 },
    ghost lower_in_range: { lower < 10000000000000000000 },
}
