ghost use Rattle.std.specs.Prelude.{◌≡◌, ◌+◌, ◌<◌, ◌∷◌};
ghost use Rattle.stack.specs.Entries.{held, room};

use stack::Stack;

// Takes the latest entry of a stack that has one.
pub(crate) fn take_latest<T: Copy>(stack: &mut Stack<T>) -> T
    requires { 0 < stack.old.height }
    ensures popped { held stack.old ≡ result ∷ held stack.new }
    ensures lower { stack.old.height ≡ stack.new.height + 1 }
    ensures long { room stack.new ≡ room stack.old }
{
    let Some(entry) = stack.pop() else {
        unreachable()
    };
    entry
}

// Puts an entry on a stack that has room for it.
pub(crate) fn put<T: Copy>(stack: &mut Stack<T>, entry: T)
    requires { stack.old.height < room stack.old }
    ensures pushed { held stack.new ≡ entry ∷ held stack.old }
    ensures higher { stack.new.height ≡ stack.old.height + 1 }
    ensures long { room stack.new ≡ room stack.old }
{
    let Ok(()) = stack.push(entry) else {
        unreachable()
    };
}
