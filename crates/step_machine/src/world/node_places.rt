//! Where a node of a world is.
ghost use Rattle.std.specs.Prelude.{◌≡◌, ◌≤◌};
ghost use Rattle.step_machine.specs.NodePlaces.{IsAt};

use crate::places::{Place, is_held, is_in_chain};
use crate::world::WorldOf;

impl<const B: u32> WorldOf<B> {
    /// Where a node is, 1 to the number of nodes. It takes no memory and doesn't wait; the time it takes is linear in
    /// the number of nodes used and of actors.
    ///
    /// ```rust
    /// let world = World::new(alloc, Kind::TwoLock, 3, 100, 2)?;
    /// assert!(world.place_of(1) == Place::Queue && world.place_of(2) == Place::Untouched);
    /// ```
    pub fn place_of(&self, node: u32) -> Place
        requires some { 1 ≤ node }
        requires within { node ≤ self.now.setup.size }
        //= both/place_of (there, nowhere_else): A node is where it is said to be, and nowhere else.
        ensures there { IsAt self.now node result }
        ensures nowhere_else { (p : Place) → IsAt self.now node p → p ≡ result }
    {
        let used = self.memory.fresh();
        if node > used {
            return Place::Untouched;
        }
        if self.memory.is_aside(node) {
            return Place::SetAside;
        }
        if is_held(&self.actors, node) {
            return Place::Held;
        }
        if is_in_chain(&self.memory, self.memory.head().node(), node, used) {
            return Place::Queue;
        }
        Place::Free
    }
}
