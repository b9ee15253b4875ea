// The collector's own numbers, in the control record and by themselves: fromspace, the lent halves as they bound them, and a
// frontier set.
ghost use Rattle.std.specs.Prelude.{◌≡◌, ℕ, ◌≤◌, List, [], length};
ghost use Rattle.rules.specs.Memory.{frontier, with_frontier};
ghost use Rattle.rules.specs.Control.{Store, with_memory};
ghost use Rattle.rules.specs.Phases.{fromspace};
ghost use Rattle.rules.specs.Barriers.{heap_of};
ghost use Rattle.heap.specs.View.{memory};
ghost use Rattle.heap.specs.Halves.{as_written, as_memory, as_heap};
ghost use Rattle.store.specs.View.{view, viewed_with};
ghost use Rattle.store.specs.Cursors.{having, at_frontier};

use crate::lent::Lent;
use crate::{Control, Cursor};
use heap::forwarding::other_half;
use heap::{Halves, Heap, Pending};

impl Cursor {
    // Fromspace: the current half until phase 12, and the other one there.
    #[tactic(auto, unfolding(rules::specs::Phases::fromspace))]
    pub(crate) fn fromspace(self) -> u32
        ensures { (s : Store) (h0 h1 l : List ℕ) → result ≡ fromspace (having s self h0 h1 l) }
    {
        if self.phase == Control::RECLAIM {
            return other_half(self.current);
        }
        self.current
    }

    // The lent halves, with nothing pending.
    pub(crate) fn halves<'a>(self, h0: &'a [u32], h1: &'a [u32]) -> Halves<'a>
        requires { (self.frontier0 ≤ length h0.now) × (self.frontier1 ≤ length h1.now) }
        ensures memory { as_memory result ≡ memory h0.now h1.now self.frontier0 self.frontier1 }
        ensures written { as_written result ≡ memory h0.now h1.now self.frontier0 self.frontier1 }
    {
        Halves::new(h0, h1, self.frontier0, self.frontier1, &[])
    }

    // The same with what a barrier needs: fromspace, and a list of `capacity` words.
    pub(crate) fn heap<'a>(self, h0: &'a [u32], h1: &'a [u32], capacity: usize) -> Heap<'a>
        requires { (self.frontier0 ≤ length h0.now) × (self.frontier1 ≤ length h1.now) × (self.tail ≤ capacity) }
        ensures { (s : Store) (l : List ℕ) → capacity ≡ length l → as_heap result ≡ heap_of (having s self h0.now h1.now l) }
    {
        Heap {
            halves: self.halves(h0, h1),
            from: self.fromspace(),
            tail: self.tail,
            capacity,
        }
    }

    // The frontier of half h.
    #[tactic(auto, unfolding(rules::specs::Memory::frontier))]
    pub(crate) fn frontier(self, h: u32) -> usize
        ensures { (h0 h1 : List ℕ) → result ≡ frontier (memory h0 h1 self.frontier0 self.frontier1) h }
    {
        if h == 0 {
            self.frontier0
        } else {
            self.frontier1
        }
    }

    // The frontier of half h set.
    pub(crate) fn with_frontier(mut self, h: u32, end: usize) -> Self
        ensures { result ≡ at_frontier self h end }
    {
        if h == 0 {
            self.frontier0 = end;
        } else {
            self.frontier1 = end;
        }
        self
    }
}

impl Control {
    // Fromspace, by the collector's numbers.
    pub(crate) fn fromspace(&self) -> u32
        ensures { (h0 h1 l : List ℕ) → result ≡ fromspace (view self.now h0 h1 l) }
    {
        self.cursor.fromspace()
    }

    // What a barrier looks at, with words pending.
    pub(crate) fn heap<'a>(&self, pending: &'a [Pending], lent: Lent<'a>) -> Heap<'a>
        requires { (self.now.cursor.frontier0 ≤ length lent.half0.now) × (self.now.cursor.frontier1 ≤ length lent.half1.now)
            × (self.now.cursor.tail ≤ self.now.capacity) × (self.now.capacity ≡ length lent.list.now) }
        ensures { as_heap result ≡ heap_of (viewed_with self.now pending.now lent.entry) }
    {
        let c = self.cursor;
        Heap {
            halves: Halves::new(lent.half0, lent.half1, c.frontier0, c.frontier1, pending),
            from: c.fromspace(),
            tail: c.tail,
            capacity: self.capacity,
        }
    }

    // The control record with the frontier of half h set.
    #[tactic(auto, unfolding(rules::specs::Memory::with_frontier))]
    pub(crate) fn with_frontier(mut self, h: u32, end: usize) -> Self
        ensures { (h0 h1 l : List ℕ) → view result h0 h1 l
            ≡ with_memory (view self h0 h1 l) (with_frontier (memory h0 h1 self.cursor.frontier0 self.cursor.frontier1) h end) }
    {
        self.cursor = self.cursor.with_frontier(h, end);
        self
    }
}
