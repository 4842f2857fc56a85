// The active tasks of a version store: their order, and each one's version at each address. What follows from those two
// alone is written and proved here, once for every store that keeps them.
ghost use Rattle.std.specs.Prelude.{◌≡◌, ℕ, ◌<◌, ◌≤◌, false, List, map, length, take, drop, None, IfOk};
ghost use Rattle.versions.specs.ClassSets.{has};
ghost use Rattle.versions.specs.Plain.{holds_class};
ghost use Rattle.versions.specs.Tables.{Table, task_by, Fitting, HeldIn, last_that, with_processor, start_place, active_place, access_place, squash_place, commit_place, replace_place};
ghost use Rattle.versions.specs.Sharers.{shared_address, SharersIn};
ghost use Rattle.versions.specs.Versions.{is_own, share_of, squashed_by};

use crate::class_set::ClassSet;
use crate::order::Order;
use crate::processor::{Class, Processor};
use crate::refusal::Refusal;
use crate::sharers::Sharers;
use crate::version::Version;

pub trait TaskTable {
    // The processors with an active task, oldest first.
    ghost processors: { Self → List ℕ };

    // The version of each processor's task at each address.
    ghost table: { Self → Table };

    // The order of the tasks.
    fn order(&self) -> &Order
        ensures { result.now ≡ processors self.now };

    // p's version of a.
    fn version(&self, p: Processor, a: u32) -> Version
        ensures { result ≡ table self.now p a };

    // What p has at a, as two bits.
    fn share(&self, p: Processor, a: u32) -> u32
        ensures value { result ≡ share_of (table self.now p a) }
        ensures bound { result < 4 }
    {
        self.version(p, a).share()
    }

    // The address of class c that p holds.
    fn held(&self, p: Processor, c: Class) -> Option<u32>
        ensures { HeldIn (table self.now p) c result };

    // A set of classes, outside of which p holds no address.
    fn classes(&self, p: Processor) -> ClassSet
        ensures { (c : ℕ) → c < 16 → has result c ≡ false → HeldIn (table self.now p) c None };

    // Whether p holds another address of a's class.
    fn class_taken(&self, p: Processor, a: u32) -> bool
        ensures { (n : ℕ) → Fitting n (processors self.now) (table self.now) → result ≡ holds_class (task_by (table self.now) p) a n }
    {
        self.held(p, Class::of(a)).is_some_and(|b| b != a)
    }

    // The sharers of a. All are asked, as what is sought of them may lie at any place; and of four processors, however many tasks there
    // are, as the number of rounds can't be foreseen else.
    fn sharers(&self, a: u32) -> Sharers
        ensures address { shared_address result ≡ a }
        ensures tasks { SharersIn (processors self.now) (table self.now) result }
    {
        let mut sharers = Sharers::new(a);
        for (k, p) in self.order().slots().iter().enumerate() {
            sharers.add(k, self.share(*p, a));
        }
        sharers.keep(self.order().len());
        sharers
    }

    // The nearest version of the sharers' address: of the k oldest tasks, the processor of the last that has an own word there. k is
    // bounded by the order, so by a clause: a type for it would be no plainer. So it is with whose sharers they are, here and below.
    fn nearest(&self, k: usize, sharers: Sharers) -> Option<Processor>
        requires bound { k ≤ length (processors self.now) }
        requires sharers { SharersIn (processors self.now) (table self.now) sharers }
        ensures { result ≡ last_that (λ q. is_own (table self.now q (shared_address sharers))) (take k (processors self.now)) }
    {
        let place = sharers.owner_before(k)?;
        Some(self.order().at(place))
    }

    // How many of the tasks from place k on a store to the sharers' address squashes: the oldest with a mark that no own word of a task
    // between hides, and all after it.
    fn squashed(&self, k: usize, sharers: Sharers) -> usize
        requires bound { k ≤ length (processors self.now) }
        requires sharers { SharersIn (processors self.now) (table self.now) sharers }
        ensures { result ≡ squashed_by (map (λ q. table self.now q (shared_address sharers)) (drop k (processors self.now))) }
    {
        match sharers.squashed_from(k) {
            Some(place) => self.order().len() - place,
            None => 0,
        }
    }

    // Each of the calls below gives the processor p and a place in the order, or the refusal: all the same pair, whether its caller
    // needs the place or not.

    // The processor p, and the place that a new task on it takes, unless it has one already.
    fn startable(&self, p: u32) -> Result<(Processor, usize), Refusal>
        ensures value { result ≡ with_processor p (start_place (processors self.now) p) }
        ensures bound { IfOk result (λ x. x.1 ≤ 4) }
    {
        let p = Processor::try_from(p)?;
        if self.order().place(p.number()).is_some() {
            return Err(Refusal::TaskActive);
        }
        Ok((p, self.order().len()))
    }

    // The processor p, and the place of its task, unless it has none.
    fn active(&self, p: u32) -> Result<(Processor, usize), Refusal>
        ensures { result ≡ with_processor p (active_place (processors self.now) p) }
    {
        let p = Processor::try_from(p)?;
        let k = self.order().place(p.number()).ok_or(Refusal::NoTask)?;
        Ok((p, k))
    }

    // The same, unless p may not load or store at a, in a memory of n words.
    fn access(&self, n: u32, p: u32, a: u32) -> Result<(Processor, usize), Refusal>
        requires { Fitting n (processors self.now) (table self.now) }
        ensures { result ≡ with_processor p (access_place n (processors self.now) (table self.now) p a) }
    {
        let (p, k) = self.active(p)?;
        if a >= n {
            return Err(Refusal::NoAddress);
        }
        if self.class_taken(p, a) {
            return Err(Refusal::ClassTaken);
        }
        Ok((p, k))
    }

    // The same, unless p may not be squashed.
    fn squashable(&self, p: u32) -> Result<(Processor, usize), Refusal>
        ensures { result ≡ with_processor p (squash_place (processors self.now) p) }
    {
        match self.active(p)? {
            (_, 0) => Err(Refusal::IsHead),
            task => Ok(task),
        }
    }

    // The same, unless p may not commit.
    fn committable(&self, p: u32) -> Result<(Processor, usize), Refusal>
        ensures { result ≡ with_processor p (commit_place (processors self.now) p) }
    {
        match self.active(p)? {
            (p, 0) => Ok((p, 0)),
            _ => Err(Refusal::NotHead),
        }
    }

    // The same, unless p may not replace a, in a memory of n words.
    fn replaceable(&self, n: u32, p: u32, a: u32) -> Result<(Processor, usize), Refusal>
        ensures { result ≡ with_processor p (replace_place n (processors self.now) (table self.now) p a) }
    {
        let (p, k) = self.active(p)?;
        if a >= n {
            return Err(Refusal::NoAddress);
        }
        if k != 0 {
            return Err(Refusal::NotHead);
        }
        if !self.version(p, a).is_held() {
            return Err(Refusal::NotHeld);
        }
        Ok((p, k))
    }
}
