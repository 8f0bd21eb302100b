ghost use Rattle.std.specs.Prelude.{◌≡◌, ◌+◌, ◌<◌, [], ◌∷◌, length, if◌then◌else◌, nat_lt};
ghost use Rattle.stack.specs.Entries.{held, room, Popped, pushed};

use crate::Stack;

impl<'a, T: Copy> Stack<'a, T> {
    // An empty stack over these places.
    #[tactic(auto, using(crate::proofs::Laws::entries_none))]
    pub fn over(places: &'a mut [T]) -> Stack<'a, T>
        ensures held { held result ≡ [] }
        ensures height { result.height ≡ 0 }
        ensures room { room result ≡ length places.old }
    {
        Stack { places, height: 0 }
    }

    // How many entries it holds: the number of taken places.
    #[tactic(auto, using(crate::proofs::Laws::length_entries))]
    pub fn height(&self) -> usize
        ensures height { result ≡ self.now.height }
        ensures held { result ≡ length (held self.now) }
    {
        self.height
    }

    // Puts an entry on top. Where there is no room it gives the entry back and changes nothing.
    pub fn push(&mut self, entry: T) -> Result<(), T>
        ensures pushed { result ≡ pushed (nat_lt self.old.height (room self.old)) entry }
        ensures held { held self.new ≡ (if nat_lt self.old.height (room self.old) then entry ∷ held self.old else held self.old) }
        ensures height { self.new.height ≡ (if nat_lt self.old.height (room self.old) then self.old.height + 1 else self.old.height) }
        ensures room { room self.new ≡ room self.old }
    {
        if self.height == self.places.len() {
            return Err(entry);
        }
        self.put(entry);
        Ok(())
    }

    // Takes the latest entry off, if there is one.
    #[tactic(auto, using(crate::proofs::Laws::held_none))]
    pub fn pop(&mut self) -> Option<T>
        ensures popped { Popped result self.old self.new }
        ensures room { room self.new ≡ room self.old }
    {
        if self.height == 0 {
            return None;
        }
        Some(self.take())
    }

    #[tactic(auto, using(crate::proofs::Laws::push_entries))]
    fn put(&mut self, entry: T)
        requires { self.old.height < room self.old }
        ensures held { held self.new ≡ entry ∷ held self.old }
        ensures height { self.new.height ≡ self.old.height + 1 }
        ensures room { room self.new ≡ room self.old }
    {
        self.places[self.height] = entry;
        self.height += 1;
    }

    #[tactic(auto, using(crate::proofs::Laws::pop_entries))]
    fn take(&mut self) -> T
        requires { 0 < self.old.height }
        ensures held { held self.old ≡ result ∷ held self.new }
        ensures height { self.old.height ≡ self.new.height + 1 }
        ensures room { room self.new ≡ room self.old }
    {
        self.height -= 1;
        self.places[self.height]
    }
}
