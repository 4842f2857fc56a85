// The active tasks of the central buffer: their order, and the rows with their versions.
ghost use Rattle.std.specs.Prelude.{◌≡◌, ℕ, ◌+◌, ◌-◌, ◌<◌, ◌≤◌, [], ◌∷◌, ◌++◌, length, take, drop, None};
ghost use Rattle.versions.specs.Orders.{place_in};
ghost use Rattle.versions.specs.Tables.{HeldIn, empty_table, with_version, without, without_all};
ghost use Rattle.buffer.specs.Rows.{HoldsNoOther};
ghost use Rattle.buffer.specs.Tasks.{processors_of, table_of, versions_at};
ghost use Rattle.versions.specs.Versions.{is_held, nearest_own, with_load, with_store};

use crate::rows::Rows;
use versions::{Class, ClassSet, Order, Processor, Sharers, TaskTable, Version};

#[derive(Drop)]
pub struct Tasks {
    order: Order,
    rows: Rows,
}

impl Tasks {
    // No task is active.
    pub fn new() -> Tasks
        ensures order { processors_of result ≡ [] }
        ensures table { table_of result ≡ empty_table }
    {
        Tasks {
            order: Order::new(),
            rows: Rows::new(),
        }
    }

    // The nearest own word at a, of the tasks up to place k. k is bounded by the order, so by a clause: a type for it would be no
    // plainer. It is always copied in: a load has looked for the row already, and LLVM sees that it need not be looked for again.
    #[inline(always)]
    pub fn nearest_own(&self, k: usize, a: u32) -> Option<u32>
        requires k_in_bounds { k < length (processors_of self.now) }
        requires few { length (processors_of self.now) ≤ 4 }
        ensures { result ≡ nearest_own (versions_at self.now a (take (k + 1) (processors_of self.now))) }
    {
        let own = self.version(self.order.at(k), a).own;
        // Mostly it is the task's own.
        if own.is_some() {
            return own;
        }
        self.nearest(k + 1, self.sharers(a))
            .and_then(|p| self.version(p, a).own)
    }

    // Adds a task on p, the youngest; that p has none yet is a clause, for it depends on the order.
    pub fn append(&mut self, p: Processor)
        requires { place_in (processors_of self.old) p ≡ None }
        ensures order { processors_of self.new ≡ processors_of self.old ++ p ∷ [] }
        ensures table { table_of self.new ≡ table_of self.old }
    {
        self.order.append(p);
    }

    // Makes v p's version of a. p holds no other address of a's class: a clause, here and below, since it relates p and a to the rows.
    pub fn put(&mut self, p: Processor, a: u32, v: Version)
        requires { HoldsNoOther (table_of self.old p) a }
        ensures order { processors_of self.new ≡ processors_of self.old }
        ensures table { table_of self.new ≡ with_version (table_of self.old) p a v }
    {
        self.rows.put(p, a, v);
    }

    // Notes in p's version v of a that it has loaded there. Where it holds a already, nothing changes, so nothing is written: most loads
    // find it so. v is passed, since a load has looked for it before: that v is p's version is a clause, as a type can't say it.
    pub fn note_load(&mut self, p: Processor, a: u32, v: Version)
        requires other { HoldsNoOther (table_of self.old p) a }
        requires version { v ≡ table_of self.old p a }
        ensures order { processors_of self.new ≡ processors_of self.old }
        ensures table { table_of self.new ≡ with_version (table_of self.old) p a (with_load (table_of self.old p a)) }
    {
        if !v.is_held() {
            self.put(p, a, v.with_load());
        }
    }

    // Notes in p's version of a that it has stored w there. p holds no other address of a's class.
    pub fn note_store(&mut self, p: Processor, a: u32, w: u32)
        requires { HoldsNoOther (table_of self.old p) a }
        ensures order { processors_of self.new ≡ processors_of self.old }
        ensures table { table_of self.new ≡ with_version (table_of self.old) p a (with_store w (table_of self.old p a)) }
    {
        self.rows.store(p, a, w);
    }

    // Whether p holds a. Both parts of the version are looked at, with `|`, as in a row.
    fn holds(&self, p: Processor, a: u32) -> bool
        ensures { result ≡ is_held (table_of self.now p a) }
    {
        let version = self.version(p, a);
        version.mark | version.own.is_some()
    }

    // The address of class c that p holds. Where it holds none, mostly its set of classes tells.
    fn held_apart(&self, p: Processor, c: Class) -> Option<u32>
        ensures { HeldIn (table_of self.now p) c result }
    {
        if self.classes(p).contains(c) {
            self.held_in_rows(p, c)
        } else {
            None
        }
    }

    // The same, looked for in the rows. It is called and not copied in: few loads and stores need it, and its code would only keep LLVM from
    // copying in what all need.
    #[inline(never)]
    fn held_in_rows(&self, p: Processor, c: Class) -> Option<u32>
        ensures { HeldIn (table_of self.now p) c result }
    {
        self.held(p, c)
    }

    // Removes the tasks from place k on, with their versions; k is bounded by a clause, as above.
    pub fn cut(&mut self, k: usize)
        requires { k ≤ length (processors_of self.old) }
        ensures order { processors_of self.new ≡ take k (processors_of self.old) }
        ensures table { table_of self.new ≡ without_all (table_of self.old) (drop k (processors_of self.old)) }
    {
        for p in &self.order.processors()[k..] {
            self.rows.clear(*p);
        }
        self.order.cut(k);
    }

    // Removes the last n tasks, with their versions; n is bounded by a clause, as above. Most stores squash none: they change nothing.
    pub fn cut_last(&mut self, n: usize)
        requires { n ≤ length (processors_of self.old) }
        ensures order { processors_of self.new ≡ take (length (processors_of self.old) - n) (processors_of self.old) }
        ensures table { table_of self.new ≡ without_all (table_of self.old) (drop (length (processors_of self.old) - n) (processors_of self.old)) }
    {
        if n > 0 {
            let active = self.order.len();
            self.cut(active - n);
        }
    }

    // Removes the oldest task, p's, with its versions; that there is one is a clause, as above.
    pub fn retire(&mut self, p: Processor)
        requires { 0 < length (processors_of self.old) }
        ensures order { processors_of self.new ≡ drop 1 (processors_of self.old) }
        ensures table { table_of self.new ≡ without (table_of self.old) p }
    {
        self.rows.clear(p);
        self.order.remove_first();
    }
}

impl TaskTable for Tasks {
    ghost processors = { processors_of };

    ghost table = { table_of };

    fn order(&self) -> &Order {
        &self.order
    }

    fn version(&self, p: Processor, a: u32) -> Version {
        self.rows.version(p, a)
    }

    fn held(&self, p: Processor, c: Class) -> Option<u32> {
        self.rows.held(p, c)
    }

    fn classes(&self, p: Processor) -> ClassSet {
        self.rows.classes(p)
    }

    // In place of the trait's, which looks for the row of the address anew for each task.
    #[inline(always)]
    fn sharers(&self, a: u32) -> Sharers {
        self.rows.sharers(&self.order, a)
    }

    // In place of the trait's, which looks for what p holds of the class first: mostly it holds a, and that is found sooner.
    fn class_taken(&self, p: Processor, a: u32) -> bool {
        !self.holds(p, a) && self.held_apart(p, Class::of(a)).is_some()
    }
}
