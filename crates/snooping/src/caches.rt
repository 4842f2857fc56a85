// The four caches and the order of the active tasks.
ghost use Rattle.std.specs.Prelude.{◌≡◌, ℕ, false, is_some, slice_index_or};
ghost use Rattle.versions.specs.Orders.{place_in};
ghost use Rattle.snooping.specs.Grid.{line_in, Tagged, Wide, Covered};

use crate::cache::Cache;
use crate::line::Line;
use crate::state::{LineEvent, LineState};
use versions::{Class, ClassSet, Order, Processor, Sharers, TaskTable, Version};

#[derive(Drop)]
pub struct Caches {
    list: [Cache; 4],
    // Of each processor the classes whose lines may hold something: a line outside of them is as at first. A set may be too large: a line that is
    // replaced stays in it until its task ends.
    valid: [ClassSet; 4],
    order: Order,
    ghost wide: { Wide list },
    ghost covered: { Covered list valid },
    ghost tagged: { Tagged (line_in list) },
}

impl Caches {
    ghost use Rattle.std.specs.Prelude.{◌≡◌, ℕ, ◌-◌, ◌%◌, ◌<◌, ◌≤◌, [], ◌∷◌, ◌++◌, length, take, drop, true, Some, None};
    ghost use Rattle.versions.specs.Orders.{place_in, Apart};
    ghost use Rattle.versions.specs.Versions.{is_own, is_held};
    ghost use Rattle.snooping.specs.declared.state.LineEvent.TheVariants.{Commit};
    ghost use Rattle.snooping.specs.Caches.{caches_in, lines_in, table_of, processors_of};
    ghost use Rattle.snooping.specs.Grid.{with_line, with_cache, holder, Linked, relinked, Pointing, cut_to};
    ghost use Rattle.versions.specs.ClassSets.{has, no_class};
    ghost use Rattle.versions.specs.Sharers.{shared_address, SharersIn};
    ghost use Rattle.versions.specs.Tables.{last_that};
    ghost use Rattle.snooping.specs.Lines.{blank, version_in, with_taken, with_next, ended};
    ghost use Rattle.snooping.specs.Report.{reached, powers};

    // No task is active, and all lines are invalid.
    pub fn new() -> Caches
        ensures order { processors_of result ≡ [] }
        ensures lines { lines_in result ≡ (λ q c. blank) }
    {
        Caches {
            list: [Cache::new(); 4],
            valid: [ClassSet::new(); 4],
            order: Order::new(),
        }
    }

    // Line c of p.
    pub fn line(&self, p: Processor, c: Class) -> Line
        ensures { result ≡ lines_in self.now p c }
    {
        self.list[p.index()].line(c)
    }

    // p's line takes the word w of an access of a.
    pub fn take(&mut self, p: Processor, event: LineEvent, a: u32, w: u32)
        ensures lines { lines_in self.new ≡ with_line (lines_in self.old) p (a % 16) (with_taken event (lines_in self.old p (a % 16)) a w) }
        ensures order { processors_of self.new ≡ processors_of self.old }
    {
        self.list[p.index()].take(event, a, w);
        self.valid[p.index()].insert(Class::of(a));
    }

    // The same, and a's lines are linked anew. They are linked already but for this one, so two pointers are written: that of the line itself,
    // and that of the line before it in task order. k is p's place, and the sharers are a's: clauses say so, as for the bits of `Sharers`.
    pub fn take_and_link(
        &mut self,
        p: Processor,
        k: usize,
        event: LineEvent,
        a: u32,
        w: u32,
        sharers: Sharers,
    )
        requires apart { Apart (processors_of self.old) }
        requires place { place_in (processors_of self.old) p ≡ Some k }
        requires address { shared_address sharers ≡ a }
        requires sharers { SharersIn (processors_of self.old) (table_of self.old) sharers }
        requires linked { Linked (processors_of self.old) a (lines_in self.old) }
        requires held { is_held (version_in (with_taken event (lines_in self.old p (a % 16)) a w)) ≡ true }
        ensures lines { lines_in self.new ≡ relinked (processors_of self.old) a (with_line (lines_in self.old) p (a % 16) (with_taken event (lines_in self.old p (a % 16)) a w)) }
        ensures order { processors_of self.new ≡ processors_of self.old }
    {
        let next = self.next_holder(k + 1, sharers);
        let before = sharers.holder_before(k);
        self.take(p, event, a, w);
        self.link(p, a, next);
        if let Some(place) = before {
            let q = self.order.at(place);
            self.link(q, a, Some(p.number()));
        }
    }

    // The first task from place k on that holds the sharers' address: its processor's number.
    fn next_holder(&self, k: usize, sharers: Sharers) -> Option<u32>
        requires bound { k ≤ 4 }
        requires sharers { SharersIn (processors_of self.now) (table_of self.now) sharers }
        ensures { result ≡ holder (table_of self.now) (shared_address sharers) (drop k (processors_of self.now)) }
    {
        let place = sharers.holder_from(k)?;
        Some(self.order.at(place).number())
    }

    // Points p's line of a to another processor's line, or to none.
    fn link(&mut self, p: Processor, a: u32, next: Option<u32>)
        requires { is_held (table_of self.old p a) ≡ true }
        ensures lines { lines_in self.new ≡ with_line (lines_in self.old) p (a % 16) (with_next (lines_in self.old p (a % 16)) next) }
        ensures order { processors_of self.new ≡ processors_of self.old }
    {
        self.list[p.index()].link(a, next);
    }

    // Ends what p's line of address a holds, as a replacement does.
    pub fn end_line(&mut self, p: Processor, a: u32)
        ensures lines { lines_in self.new ≡ with_line (lines_in self.old) p (a % 16) blank }
        ensures order { processors_of self.new ≡ processors_of self.old }
    {
        self.list[p.index()].end(a, LineEvent::Replace);
    }

    // Ends the lines of processors without a task, and pointers to them. These stand in lines of classes of which such a processor has a line.
    fn trim(&mut self)
        requires { Pointing (lines_in self.old) }
        ensures lines { lines_in self.new ≡ cut_to (processors_of self.old) (lines_in self.old) }
        ensures order { processors_of self.new ≡ processors_of self.old }
    {
        let running = running(&self.order);
        let touched = self.left_over(&running);
        for (p, cache) in self.list.iter_mut().enumerate() {
            if running[p] {
                cache.unlink(&self.order, &running, self.valid[p].and(touched));
            } else {
                cache.end_all(LineEvent::Squash, self.valid[p]);
                self.valid[p] = ClassSet::new();
            }
        }
    }

    // The classes of which a processor that is not running may have a line.
    fn left_over(&self, running: &[bool; 5]) -> ClassSet
        ensures { (q c : ℕ) → q < 4 → slice_index_or running.now q false ≡ false → has result c ≡ false → has (slice_index_or self.now.valid q no_class) c ≡ false }
    {
        let mut classes = ClassSet::new();
        for (q, valid) in self.valid.iter().enumerate() {
            if !running[q] {
                classes = classes.or(*valid);
            }
        }
        classes
    }

    // Removes the tasks from place k on: their lines end, and pointers to them. k is bounded by the order, so by a clause: a type
    // for it would be no plainer.
    pub fn cut(&mut self, k: usize)
        requires bound { k ≤ length (processors_of self.old) }
        requires pointing { Pointing (lines_in self.old) }
        ensures order { processors_of self.new ≡ take k (processors_of self.old) }
        ensures lines { lines_in self.new ≡ cut_to (take k (processors_of self.old)) (lines_in self.old) }
    {
        self.order.cut(k);
        self.trim();
    }

    // Removes the last n tasks; n is bounded by a clause, as above.
    pub fn cut_last(&mut self, n: usize)
        requires bound { n ≤ length (processors_of self.old) }
        requires pointing { Pointing (lines_in self.old) }
        ensures order { processors_of self.new ≡ take (length (processors_of self.old) - n) (processors_of self.old) }
        ensures none { n ≡ 0 → lines_in self.new ≡ lines_in self.old }
        ensures some { 0 < n → lines_in self.new ≡ cut_to (take (length (processors_of self.old) - n) (processors_of self.old)) (lines_in self.old) }
    {
        if n > 0 {
            let active = self.order.len();
            self.cut(active - n);
        }
    }

    // The processors from place k on that the invalidations of a store to the sharers' address reach, as a sum of powers of two: those up to the
    // first with an own word, and that one only if it has a mark too. All four slots are gone through, as the number of rounds can't be
    // foreseen else. k is bounded by a clause, as above.
    pub fn invalidated(&self, k: usize, sharers: Sharers) -> u32
        requires bound { k ≤ length (processors_of self.now) }
        requires sharers { SharersIn (processors_of self.now) (table_of self.now) sharers }
        ensures { result ≡ powers (reached (λ q. table_of self.now q (shared_address sharers)) (drop k (processors_of self.now))) }
    {
        let active = self.order.len();
        let end = match sharers.owner_from(k) {
            Some(place) => place + sharers.is_marked(place) as usize,
            None => active,
        };
        let mut mask = 0;
        for (i, p) in self.order.slots().iter().enumerate() {
            let reached = (k <= i) & (i < end);
            mask += (reached as u32) << p.number();
        }
        mask
    }

    // Adds a task on p, the youngest; that p has none yet is a clause, for it depends on the order.
    pub fn append(&mut self, p: Processor)
        requires { place_in (processors_of self.old) p ≡ None }
        ensures order { processors_of self.new ≡ processors_of self.old ++ p ∷ [] }
        ensures list { caches_in self.new ≡ caches_in self.old }
    {
        self.order.append(p);
    }

    // Removes the oldest task, p's: its lines end; that there is one is a clause, as above.
    pub fn retire(&mut self, p: Processor)
        requires { 0 < length (processors_of self.old) }
        ensures order { processors_of self.new ≡ drop 1 (processors_of self.old) }
        ensures lines { lines_in self.new ≡ with_cache (lines_in self.old) p (ended Commit) }
    {
        let i = p.index();
        self.list[i].end_all(LineEvent::Commit, self.valid[i]);
        self.valid[i] = ClassSet::new();
        self.order.remove_first();
    }
}

impl TaskTable for Caches {
    ghost use Rattle.std.specs.Prelude.{◌≡◌};
    ghost use Rattle.snooping.specs.Caches.{table_of, processors_of};

    ghost processors = { processors_of };

    ghost table = { table_of };

    fn order(&self) -> &Order {
        &self.order
    }

    fn version(&self, p: Processor, a: u32) -> Version {
        self.list[p.index()].version(a)
    }

    // In place of the trait's, which would take a version apart again: most stores ask all four caches.
    fn share(&self, p: Processor, a: u32) -> u32 {
        self.list[p.index()].share(a)
    }

    fn held(&self, p: Processor, c: Class) -> Option<u32> {
        let line = self.line(p, c);
        (line.state != LineState::Invalid).then_some(line.tag)
    }

    fn classes(&self, p: Processor) -> ClassSet {
        self.valid[p.index()]
    }
}

// Of each processor whether it has a task, and last false, for none. It stands in a table, since a cut asks for each line.
fn running(order: &Order) -> [bool; 5]
    ensures { (q : ℕ) → slice_index_or result q false ≡ is_some (place_in order.now q) }
{
    [
        order.place(0).is_some(),
        order.place(1).is_some(),
        order.place(2).is_some(),
        order.place(3).is_some(),
        false,
    ]
}
