ghost use Rattle.std.specs.Prelude.{◌≤◌};

mod ops;

// The block tariff: a need is charged by the blocks of this length that it begins, each at the price.
#[derive(Clone, Copy, PartialEq, Eq, Debug)]
pub struct Block {
    length: u64,
    ghost some: { 1 ≤ length },
    ghost short: { length ≤ 1000 },
}
