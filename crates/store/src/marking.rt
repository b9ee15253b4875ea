// The phases that mark: RootMark shades the records of the globals, HeapMark those of the listed records' reference
// fields and of the sessions' registers.
ghost use Rattle.std.specs.Prelude.{◌≡◌, ◌≤◌, ◌<◌, length};
ghost use Rattle.rules.specs.Control.{Store};
ghost use Rattle.rules.specs.Collector.{root_mark, scan_record, heap_mark};
ghost use Rattle.store.specs.Steps.{stepped};
ghost use Rattle.store.specs.Cursors.{having, Ready, at_walk, at_list};
ghost use Rattle.store.specs.Work.{untouched, worked};
ghost use Rattle.store.specs.Marking.{shade_next};

use crate::searching::unscanned;
use crate::shade::put_grey;
use crate::work::{Next, Work};
use crate::{Control, Cursor};
use heap::words::put_word;
use heap::{COLOUR_AT, Colour, HEADER};
use rules::{Damage, Followed, Session};

impl Cursor {
    // The walk goes on to a place and a field, and nothing else changes.
    fn walk_to(mut self, place: usize, field: usize) -> Next
        ensures { result ≡ untouched (at_walk self place field) }
    {
        self.place = place;
        self.field = field;
        self.alone()
    }

    // A record was shaded: the list's end, and the walk at a place and a field.
    fn shaded(mut self, tail: usize, place: usize, field: usize) -> Next
        ensures { result ≡ untouched (at_walk (at_list self self.head tail) place field) }
    {
        self.tail = tail;
        self.walk_to(place, field)
    }

    // The listed record is done: the list's place, and the walk at field 0.
    fn past_entry(mut self, head: usize) -> Next
        ensures { result ≡ untouched (at_walk (at_list self head self.tail) self.place 0) }
    {
        self.head = head;
        self.walk_to(self.place, 0)
    }

    // The record that q names is shaded, and the walk goes on to a place and a field.
    #[tactic(auto, unfolding(crate::specs::Marking::shade_next))]
    fn shade_next(
        self,
        h0: &mut [u32],
        h1: &mut [u32],
        list: &mut [u32],
        q: u32,
        place: usize,
        field: usize,
    ) -> Work
        requires { Ready self h0.old h1.old × (self.tail ≤ length list.old) }
        ensures { (s : Store) → worked (having s self h0.new h1.new list.new) result
            ≡ stepped (having s self h0.old h1.old list.old)
            (shade_next (having s self h0.old h1.old list.old) q place field) }
    {
        let w = self.heap(h0, h1, list.len()).shading(q)?;
        if w == 0 {
            return Ok(self.walk_to(place, field));
        }
        put_grey(h0, h1, list, self.tail, w);
        Ok(self.shaded(self.tail + 1, place, field))
    }

    // The listed record v: its next reference field is shaded, or, none left, it is coloured black.
    #[tactic(auto, unfolding(rules::specs::Collector::scan_record, crate::specs::Marking::shade_next, rules::specs::Memory::follow, rules::specs::Memory::followed))]
    fn scan_record(self, h0: &mut [u32], h1: &mut [u32], list: &mut [u32], v: u32) -> Work
        requires { (self.head < self.tail) × Ready self h0.old h1.old × (self.tail ≤ length list.old) }
        ensures { (s : Store) → worked (having s self h0.new h1.new list.new) result
            ≡ stepped (having s self h0.old h1.old list.old)
            (scan_record (having s self h0.old h1.old list.old) v) }
    {
        let halves = self.halves(h0, h1);
        let Followed::Sound(_, r, _) = halves.follow(v) else {
            return Err(Damage);
        };
        let field = self.field;
        if field < (r as usize) {
            let q = halves.word(v, HEADER + field);
            return self.shade_next(h0, h1, list, q, self.place, field + 1);
        }
        put_word(h0, h1, v, COLOUR_AT, Colour::Black as u32);
        Ok(self.past_entry(self.head + 1))
    }

    // Phase 3: the next global's record is shaded; after the last one the step moves on.
    #[tactic(auto, unfolding(rules::specs::Collector::root_mark, rules::specs::Phases::move_on, crate::specs::Marking::shade_next))]
    pub(crate) fn root_mark(
        self,
        globals: &[u32; Control::GLOBALS],
        h0: &mut [u32],
        h1: &mut [u32],
        list: &mut [u32],
    ) -> Work
        requires { Ready self h0.old h1.old × (self.tail ≤ length list.old) }
        ensures { (s : Store) → globals.now ≡ s.globals
            → worked (having s self h0.new h1.new list.new) result
            ≡ stepped (having s self h0.old h1.old list.old)
            (root_mark (having s self h0.old h1.old list.old)) }
    {
        let place = self.place;
        if Control::GLOBALS <= place {
            return Ok(self.move_on());
        }
        self.shade_next(h0, h1, list, globals[place], place + 1, self.field)
    }

    // Phase 4: the oldest listed record; the list done, the lowest unscanned session; all scanned, the step moves on.
    #[tactic(auto, unfolding(rules::specs::Collector::heap_mark, rules::specs::Phases::move_on))]
    pub(crate) fn heap_mark(
        self,
        sessions: &[Session; Control::SESSIONS],
        h0: &mut [u32],
        h1: &mut [u32],
        list: &mut [u32],
    ) -> Work
        requires { Ready self h0.old h1.old × (self.tail ≤ length list.old) }
        ensures { (s : Store) → sessions.now ≡ s.sessions
            → worked (having s self h0.new h1.new list.new) result
            ≡ stepped (having s self h0.old h1.old list.old)
            (heap_mark (having s self h0.old h1.old list.old)) }
    {
        let head = self.head;
        if head < self.tail {
            let v = list[head];
            return self.scan_record(h0, h1, list, v);
        }
        match unscanned(sessions) {
            Some(n) => self.scan_session(n, &sessions[n], h0, h1, list),
            None => Ok(self.move_on()),
        }
    }
}
