// A stack over lent places: no memory of its own, and never more entries than places.
#![tactic(auto)]

ghost use Rattle.std.specs.Prelude.{◌≤◌, length};

mod ops;

// The first `height` places are taken, the latest entry last.
#[derive(Drop)]
pub struct Stack<'a, T> {
    places: &'a mut [T],
    height: usize,
    ghost low: { height ≤ length places.now },
}
