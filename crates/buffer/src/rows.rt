// The rows of the central buffer: 16 sets of four. Address a has set a mod 16. Four rows are enough for a set,
// since each of four tasks holds at most one address of a class.
ghost use Rattle.std.specs.Prelude.{◌≡◌, ℕ, ◌%◌, ◌<◌, true, ◌&&◌, map, length, get_or, ◌==◌, replicate, slice_index_or, slice_set};
ghost use Rattle.std.specs.List.{position};
ghost use Rattle.buffer.specs.Sets.{no_row, free_row, in_row, row_with, is_free, in_rows, without_row, GoodSet, GoodSets, LastOf, HeldBefore, RowFor, PutInto, Covered};
ghost use Rattle.versions.specs.Sharers.{shared_address, SharersOf, SharersIn};
ghost use Rattle.versions.specs.Versions.{is_held, with_store};

use std::marker::Model;
use versions::{Class, ClassSet, Order, Processor, Sharers, Version};

// An address and a version of it for each processor. A row without any is free.
#[derive(Clone, Copy)]
pub struct Row {
    address: u32,
    versions: [Version; 4],
}

impl Row {
    // p's version.
    fn version(&self, p: Processor) -> Version
        ensures { result ≡ in_row self.now p }
    {
        self.versions[p.index()]
    }

    // Whether p holds the row. Both parts are looked at, with `|`: whether the second is needed can't be foreseen, and to ask costs more.
    fn held_by(&self, p: Processor) -> bool
        ensures { result ≡ is_held (in_row self.now p) }
    {
        let version = self.version(p);
        version.mark | version.own.is_some()
    }

    // Makes v p's version, and a the address.
    fn put(&mut self, p: Processor, a: u32, v: Version)
        ensures row { self.new ≡ row_with self.old p a v }
        ensures bound { p < 4 }
    {
        self.address = a;
        self.versions[p.index()] = v;
    }

    // Takes p's version out.
    fn clear(&mut self, p: Processor)
        ensures { self.new ≡ without_row p self.old }
    {
        self.versions[p.index()] = Version::none();
    }

    // Whether nobody holds the row.
    fn is_free(&self) -> bool
        ensures { result ≡ is_free self.now }
    {
        !self.versions.iter().any(|v| v.is_held())
    }
}

// The four rows of one class of addresses.
#[derive(Clone, Copy)]
struct Set {
    rows: [Row; 4],
}

// A clause sees a set as its rows.
impl Model for Set {
    ghost use Rattle.std.specs.Prelude.{◌≡◌, List, length};
    ghost use Rattle.buffer.specs.declared.rows.Row.{Row};

    ghost Value = { List Row };

    ghost view = { λ s. s.rows };

    ghost invariant = { λ s. length s.rows ≡ 4 };

    ghost inverse = { λ rs. record { rows = rs } };
}

impl Set {
    // Four free rows. It is called, not copied in: LLVM then copies the set sixteen times, where it would write each part of each version
    // by itself, in thousands of instructions.
    #[inline(never)]
    fn free() -> Set
        ensures { result ≡ replicate 4 free_row }
    {
        let row = Row {
            address: 0,
            versions: [Version::none(); 4],
        };
        Set { rows: [row; 4] }
    }

    // p's version of a.
    fn version(&self, p: Processor, a: u32) -> Version
        requires { GoodSet (a % 16) self.now }
        ensures { result ≡ in_rows self.now p a }
    {
        match self.address_place(a) {
            Some(j) => self.rows[j].version(p),
            None => Version::none(),
        }
    }

    // The sharers of a among the tasks of an order. Its row is looked for once, and then asked for each of four processors, however many tasks
    // there are, as the number of rounds can't be foreseen else. It is always copied in, here and below: who asks has looked for the row already, and
    // LLVM sees that it need not be looked for again.
    #[inline(always)]
    fn sharers(&self, order: &Order, a: u32) -> Sharers
        requires { GoodSet (a % 16) self.now }
        ensures address { shared_address result ≡ a }
        ensures tasks { SharersOf (map (λ q. in_rows self.now q a) order.now) result }
    {
        let mut sharers = Sharers::new(a);
        let active = order.len();
        if let Some(j) = self.address_place(a) {
            let row = &self.rows[j];
            for (k, p) in order.slots().iter().enumerate() {
                sharers.add(k, row.version(*p).share());
            }
            sharers.keep(active);
        }
        sharers
    }

    // The address that p holds. All rows are looked at, as in `address_place`.
    fn held(&self, p: Processor) -> Option<u32>
        ensures { HeldBefore self.now p 4 result }
    {
        let mut place = 4;
        for (j, row) in self.rows.iter().enumerate() {
            if row.held_by(p) {
                place = j;
            }
        }
        if place < 4 {
            Some(self.rows[place].address)
        } else {
            None
        }
    }

    // Takes p's versions out.
    fn clear(&mut self, p: Processor)
        ensures { self.new ≡ map (without_row p) self.old }
    {
        for row in self.rows.iter_mut() {
            row.clear(p);
        }
    }

    // Makes v p's version of a. That the set is in order and that p holds no row of another address are clauses, here and in the two calls
    // below: they relate p and a to the rows, which no type of either could say more plainly.
    fn put(&mut self, p: Processor, a: u32, v: Version)
        requires good_set { GoodSet (a % 16) self.old }
        requires mine { (i : ℕ) → i < 4 → is_held (in_row (slice_index_or self.old i no_row) p) ≡ true → (get_or self.old i no_row).address ≡ a }
        ensures { PutInto self.old p a v self.new }
    {
        let j = self.row_for(p, a);
        self.rows[j].put(p, a, v);
    }

    // Puts w over p's version of a. The row is looked for once, where `version` and then `put` would look twice.
    fn store(&mut self, p: Processor, a: u32, w: u32)
        requires good_set { GoodSet (a % 16) self.old }
        requires mine { (i : ℕ) → i < 4 → is_held (in_row (slice_index_or self.old i no_row) p) ≡ true → (get_or self.old i no_row).address ≡ a }
        ensures { PutInto self.old p a (with_store w (in_rows self.old p a)) self.new }
    {
        let j = self.row_for(p, a);
        let version = self.rows[j].version(p);
        self.rows[j].put(p, a, version.with_store(w));
    }

    // A row that can take p's version of a: the one of the address, else a free one.
    fn row_for(&self, p: Processor, a: u32) -> usize
        requires good_set { GoodSet (a % 16) self.now }
        requires mine { (i : ℕ) → i < 4 → is_held (in_row (slice_index_or self.now i no_row) p) ≡ true → (get_or self.now i no_row).address ≡ a }
        ensures { RowFor self.now p a result }
    {
        // Its contract gives p < 4, which the search for a free row needs.
        let _ = p.index();
        self.address_place(a).or_else(|| self.free_place()).unwrap()
    }

    // The place of the last row of address a. All are looked at: a search that ends at the first costs more, since where it ends can't
    // be foreseen. The place is a number until the end, 4 for none, since LLVM makes a chain of tests of an option.
    fn address_place(&self, a: u32) -> Option<usize>
        ensures { LastOf self.now a 4 result }
    {
        let mut place = 4;
        for (j, row) in self.rows.iter().enumerate() {
            if row.address == a {
                place = j;
            }
        }
        if place < 4 { Some(place) } else { None }
    }

    // The place of a free row.
    fn free_place(&self) -> Option<usize>
        ensures { result ≡ position is_free self.now }
    {
        self.rows.iter().position(|row| row.is_free())
    }
}

#[derive(Drop)]
pub struct Rows {
    sets: [Set; 16],
    // For each processor, a set of classes outside of which it holds no row: most tasks hold few rows, and the other sets need no look
    // where a task ends. It may be too large, since a version that is put may be none.
    classes: [ClassSet; 4],
    ghost good: { GoodSets sets },
    ghost covered: { Covered classes sets },
}

impl Rows {
    ghost use Rattle.std.specs.Prelude.{false, None};
    ghost use Rattle.buffer.specs.Rows.{table_in, HoldsNoOther};
    ghost use Rattle.versions.specs.ClassSets.{has};
    ghost use Rattle.versions.specs.Tables.{HeldIn, with_version, without, empty_table};

    // All rows are free.
    pub fn new() -> Rows
        ensures { table_in result ≡ empty_table }
    {
        Rows {
            sets: [Set::free(); 16],
            classes: [ClassSet::new(); 4],
        }
    }

    // p's version of a.
    pub fn version(&self, p: Processor, a: u32) -> Version
        ensures { result ≡ table_in self.now p a }
    {
        self.sets[Class::of(a).index()].version(p, a)
    }

    // The sharers of a among the tasks of an order.
    #[inline(always)]
    pub fn sharers(&self, order: &Order, a: u32) -> Sharers
        ensures address { shared_address result ≡ a }
        ensures tasks { SharersIn order.now (table_in self.now) result }
    {
        self.sets[Class::of(a).index()].sharers(order, a)
    }

    // A set of classes, outside of which p holds no address.
    pub fn classes(&self, p: Processor) -> ClassSet
        ensures { (c : ℕ) → c < 16 → has result c ≡ false → HeldIn (table_in self.now p) c None }
    {
        self.classes[p.index()]
    }

    // The address of class c that p holds.
    pub fn held(&self, p: Processor, c: Class) -> Option<u32>
        ensures { HeldIn (table_in self.now p) c result }
    {
        self.sets[c.index()].held(p)
    }

    // Makes v p's version of a. p holds no other address of a's class.
    pub fn put(&mut self, p: Processor, a: u32, v: Version)
        requires { HoldsNoOther (table_in self.old p) a }
        ensures { table_in self.new ≡ with_version (table_in self.old) p a v }
    {
        let class = Class::of(a);
        self.sets[class.index()].put(p, a, v);
        self.classes[p.index()].insert(class);
    }

    // Puts w over p's version of a. p holds no other address of a's class.
    pub fn store(&mut self, p: Processor, a: u32, w: u32)
        requires { HoldsNoOther (table_in self.old p) a }
        ensures { table_in self.new ≡ with_version (table_in self.old) p a (with_store w (table_in self.old p a)) }
    {
        let class = Class::of(a);
        self.sets[class.index()].store(p, a, w);
        self.classes[p.index()].insert(class);
    }

    // Takes p's versions out of all rows.
    pub fn clear(&mut self, p: Processor)
        ensures { table_in self.new ≡ without (table_in self.old) p }
    {
        let mut left = self.classes[p.index()];
        while let Some(c) = left.take_lowest() {
            self.sets[c.index()].clear(p);
        }
        self.classes[p.index()] = ClassSet::new();
    }
}
