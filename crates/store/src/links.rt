// Store of several links: first the plans of all of them, each with the words pending that those before it are going to write; then all
// those words, and the list entries.
ghost use Rattle.std.specs.Prelude.{◌≡◌, [], ◌∷◌, ◌++◌, ◌+◌, ◌*◌, ◌≤◌, ◌<◌, length, take, IfOk};
ghost use Rattle.std.proofs.lemmas.List.Edits.{sets};
ghost use Rattle.rules.specs.Calls.{most_links, store, store_each, store_links};
ghost use Rattle.rules.specs.Runs.{apply, StoreLinks};
ghost use Rattle.heap.specs.Pending.{laid};
ghost use Rattle.store.specs.View.{view, viewed, outcome};
ghost use Rattle.store.specs.Links.{place_of, link_words, link_count, link_entries, most_word, Placeable, entry_of, LinkWrites, no_links, with_link, with_pending, linked, Listed, tailed};

use crate::lent::Lent;
use crate::{Control, Reply};
use heap::pending::lay;
use heap::{COLOUR_AT, Colour, HEADER, Pending};
use rules::{Link, Refusal, StorePlan, Value, Writes};
use std::marker::Model;

// The pending words of a link: the colours of two records shaded, the field of the record and that of its replica.
const WORDS: usize = 4;

// Room for those of all links, and for their list entries, two for each.
const PENDING: usize = WORDS * rules::LINKS;

const ENTRIES: usize = 2 * rules::LINKS;

// The reference of word j of the record that v names, or null where v is.
fn place(v: u32, j: u32) -> u32
    requires { v + 2 * j ≤ most_word }
    ensures { result ≡ place_of v j }
{
    if v == 0 { 0 } else { v + 2 * j }
}

// The pending words of a link to reference field i of the record v.
fn words_of_link(v: u32, i: u32, w: Writes) -> [Pending; WORDS]
    requires { Placeable v i w }
    ensures { result ≡ link_words v i w }
{
    let colour = COLOUR_AT as u32;
    let grey = Colour::Grey as u32;
    let j = (HEADER as u32) + i;
    [
        Pending {
            place: place(w.first, colour),
            word: grey,
        },
        Pending {
            place: place(w.second, colour),
            word: grey,
        },
        Pending {
            place: place(v, j),
            word: w.own,
        },
        Pending {
            place: place(w.replica, j),
            word: w.copy,
        },
    ]
}

// One entry more after the first n, of a record v that is shaded, where v isn't null: how many there are then.
fn enter(entries: &mut [u32], n: usize, v: u32) -> usize
    requires { n < length entries.old }
    ensures { (take result entries.new ≡ take n entries.old ++ entry_of v) × (result ≡ n + length (entry_of v)) }
{
    if v == 0 {
        return n;
    }
    entries[n] = v;
    n + 1
}

// What the plans of links write: pending words, and entries for the list. Arrays with how much of each counts, since the project has no
// heap and fixed memory.
#[derive(Drop)]
struct Planned {
    words: [Pending; PENDING],
    links: usize,
    entries: [u32; ENTRIES],
    entered: usize,
}

impl Model for Planned {
    ghost Value = { LinkWrites };

    ghost view = { λ p. record { words = take (link_count * p.links) p.words; entries = take p.entered p.entries } };

    ghost invariant = { λ p. (p.links ≤ most_links) × (p.entered ≤ link_entries * p.links) };
}

impl Planned {
    // Of no link.
    fn new() -> Self
        ensures { result ≡ no_links }
    {
        Self {
            words: [Pending { place: 0, word: 0 }; PENDING],
            links: 0,
            entries: [0; ENTRIES],
            entered: 0,
        }
    }

    // The pending words.
    fn words(&self) -> &[Pending]
        ensures { result.now ≡ self.now.words }
    {
        &self.words[..WORDS * self.links]
    }

    // The entries.
    fn entries(&self) -> &[u32]
        ensures { result.now ≡ self.now.entries }
    {
        &self.entries[..self.entered]
    }

    // One link more, to a reference field: its words, and an entry of each record that it shades.
    #[tactic(auto, using(std::proofs::lemmas::Slice::overwrites))]
    fn add(&mut self, plan: StorePlan, field: u32)
        requires { (length self.old.words < link_count * most_links) × Placeable plan.into field plan.writes }
        ensures { self.new ≡ with_link self.old plan field }
    {
        let at = WORDS * self.links;
        let words = words_of_link(plan.into, field, plan.writes);
        self.words[at..at + WORDS].copy_from_slice(&words);
        self.links += 1;
        let n = enter(&mut self.entries, self.entered, plan.writes.first);
        self.entered = enter(&mut self.entries, n, plan.writes.second);
    }
}

// Writes what the plans of links say: the pending words, and the entries to the list from place `at` on.
#[tactic(auto, using(crate::proofs::calls::Rows::part_sets))]
fn put_links(h0: &mut [u32], h1: &mut [u32], list: &mut [u32], at: usize, planned: &Planned)
    requires { at + length planned.now.entries ≤ length list.old }
    ensures { (h0.new ≡ laid 0 planned.now.words h0.old) × (h1.new ≡ laid 1 planned.now.words h1.old)
        × (list.new ≡ sets list.old at planned.now.entries) }
{
    lay(h0, 0, planned.words());
    lay(h1, 1, planned.words());
    let entries = planned.entries();
    list[at..at + entries.len()].copy_from_slice(entries);
}

impl Control {
    // The plans of links, one after the other, each after the links that are planned: the list ends behind their entries then. That end is
    // set in the control record where it stands, so that it isn't copied; who calls this sets it again.
    fn plan_links(
        &mut self,
        lent: Lent,
        s: u32,
        register: u32,
        links: &[Link],
        planned: &mut Planned,
    ) -> Result<(), Refusal>
        requires { (length links.now ≤ most_links) × (self.old.cursor.tail ≤ length lent.list.now) × (planned.old ≡ no_links) }
        ensures plans { linked (viewed self.old lent.entry) result planned.new
            ≡ store_each (viewed self.old lent.entry) s register links.now }
        ensures room { IfOk result (λ _. Listed self.old planned.new lent.entry.list.now) }
        ensures moved { self.new ≡ tailed self.old self.new.cursor.tail }
    {
        let tail = self.cursor.tail;
        for link in links {
            self.cursor.tail = tail + planned.entries().len();
            let words = planned.words();
            let plan = self.store_plan(words, lent, s, register, link.field, link.from)?;
            planned.add(plan, link.field);
        }
        Ok(())
    }

    // The tests of several links, and what they write.
    #[tactic(auto, using(crate::proofs::tests::Results::session_tests, crate::proofs::tests::Opening::session_bounds), unfolding(rules::specs::Calls::store_links, rules::specs::Calls::is_count))]
    fn links_plan(
        &mut self,
        lent: Lent,
        s: u32,
        register: u32,
        count: u32,
        links: &[Link; rules::LINKS],
        planned: &mut Planned,
    ) -> Result<(), Refusal>
        requires { planned.old ≡ no_links }
        ensures plans { linked (viewed self.old lent.entry) result planned.new
            ≡ store_links (viewed self.old lent.entry) s register count links.now }
        ensures room { IfOk result (λ _. Listed self.old planned.new lent.entry.list.now) }
        ensures moved { self.new ≡ tailed self.old self.new.cursor.tail }
    {
        self.attached_tests(lent, s)?;
        if (rules::LINKS as u32) < count {
            return Err(Refusal::TooMany);
        }
        self.plan_links(lent, s, register, &links[..count as usize], planned)
    }

    // Store of several links: each of the first `count` fields named gets what the register beside it holds; all of them, or none.
    pub fn store_links(
        mut self,
        h0: &mut [u32],
        h1: &mut [u32],
        list: &mut [u32],
        s: u32,
        register: u32,
        count: u32,
        links: [Link; rules::LINKS],
    ) -> Reply
        ensures { outcome result h0.new h1.new list.new
            ≡ apply (view self h0.old h1.old list.old) (StoreLinks s register count links) }
    {
        let lent = Lent {
            half0: h0,
            half1: h1,
            list,
        };
        let tail = self.cursor.tail;
        let mut planned = Planned::new();
        // no `?`: refused or not, the reply hands the control record back
        let answer = match self.links_plan(lent, s, register, count, &links, &mut planned) {
            Ok(()) => {
                put_links(h0, h1, list, tail, &planned);
                self.cursor.tail = tail + planned.entries().len();
                Ok(Value::Done)
            }
            Err(refusal) => {
                self.cursor.tail = tail;
                Err(refusal)
            }
        };
        Reply {
            control: self,
            answer,
        }
    }
}
