// The order of the active tasks: at most four processors, oldest first, none twice.
ghost use Rattle.std.specs.Prelude.{◌≡◌, ℕ, ◌<◌, ◌≤◌, [], ◌∷◌, ◌++◌, length, take, drop, None, slice_index};
ghost use Rattle.versions.specs.Orders.{place_in, Apart, kept_below, moved_down};

use crate::processor::Processor;
use crate::processor_list::ProcessorList;
use std::marker::Model;

// How many processors there are; as a place it stands for none.
const PROCESSORS: usize = 4;

// A place after a cut to the k oldest.
fn kept_below(k: usize, place: usize) -> usize
    ensures { result ≡ kept_below k place }
{
    if place < k { place } else { PROCESSORS }
}

// A place after the oldest has gone.
fn moved_down(place: usize) -> usize
    ensures { result ≡ moved_down place }
{
    match place {
        0 | PROCESSORS => PROCESSORS,
        _ => place - 1,
    }
}

#[derive(Clone, Copy)]
pub struct Order {
    list: ProcessorList,
    // The place of each processor, or 4. Each turn asks for one, and a search of the list would cost a tenth of a turn.
    places: [usize; PROCESSORS],
}

// A clause sees an order as its processors. That they are apart, other crates do not see of the type: the calls that they use
// say it. The list alone gives the places back, so that an order can be copied.
impl Model for Order {
    ghost use Rattle.std.specs.Prelude.{ℕ, List};

    ghost Value = { List ℕ };

    ghost use Rattle.versions.specs.Orders.{Apart, Placing};
    ghost use Rattle.versions.specs.Copies.{places_of, places_back};

    ghost view = { λ o. o.list };

    ghost invariant = { λ o. Apart o.list × Placing o.list o.places };

    ghost inverse = { λ ps. record { list = ps; places = places_of ps } };

    ghost inverse_ok = { λ o h i. record { list = o.list; places = places_back o.list o.places h.1 i } };
}

impl Order {
    // No task is active.
    pub fn new() -> Order
        ensures { result ≡ [] }
    {
        Order {
            list: ProcessorList::new(),
            places: [PROCESSORS; PROCESSORS],
        }
    }

    // How many tasks are active.
    pub fn len(&self) -> usize
        ensures value { result ≡ length self.now }
        ensures bound { result ≤ 4 }
        ensures apart { Apart self.now }
    {
        self.list.len()
    }

    // The processors, oldest task first.
    pub fn processors(&self) -> &[Processor]
        ensures value { result.now ≡ self.now }
        ensures bound { length result.now ≤ 4 }
        ensures apart { Apart self.now }
    {
        self.list.as_slice()
    }

    // Four processors: those with a task, oldest first, and then any. A loop over these goes round four times, however many tasks there are.
    pub fn slots(&self) -> &[Processor]
        ensures first { take (length self.now) result.now ≡ self.now }
        ensures four { length result.now ≡ 4 }
    {
        self.list.slots()
    }

    // The place of p, from 0 for the oldest.
    pub fn place(&self, p: u32) -> Option<usize>
        ensures value { result ≡ place_in self.now p }
        ensures apart { Apart self.now }
    {
        let place = *self.places.get(p as usize)?;
        if place < PROCESSORS {
            Some(place)
        } else {
            None
        }
    }

    // The processor at a place. What k may be is a clause here and below: it depends on how many tasks there are, which no type of
    // k could say more plainly.
    pub fn at(&self, k: usize) -> Processor
        requires { k < length self.now }
        ensures { result ≡ slice_index self.now k }
    {
        self.processors()[k]
    }

    // Adds p as the youngest; that p has no task yet is a clause, for it depends on the order.
    pub fn append(&mut self, p: Processor)
        requires { place_in self.old p ≡ None }
        ensures { self.new ≡ self.old ++ p ∷ [] }
    {
        self.places[p.index()] = self.list.len();
        self.list.push(p);
    }

    // Keeps the k oldest; k is bounded by the order, so by a clause.
    pub fn cut(&mut self, k: usize)
        requires { k ≤ length self.old }
        ensures { self.new ≡ take k self.old }
    {
        for place in self.places.iter_mut() {
            *place = kept_below(k, *place);
        }
        self.list.truncate(k);
    }

    // Removes the oldest; that there is one is a clause, since it is so only after a call has found the task.
    pub fn remove_first(&mut self)
        requires { 0 < length self.old }
        ensures { self.new ≡ drop 1 self.old }
    {
        for place in self.places.iter_mut() {
            *place = moved_down(*place);
        }
        self.list.remove_first();
    }
}
