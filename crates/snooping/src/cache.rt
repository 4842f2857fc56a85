// One processor's cache: a line for each class of addresses.
ghost use Rattle.std.specs.Prelude.{◌≡◌, ℕ, ◌%◌, ◌<◌, false, map, length, is_some, replicate, slice_index_or, slice_set};
ghost use Rattle.versions.specs.ClassSets.{has};
ghost use Rattle.versions.specs.Orders.{place_in};
ghost use Rattle.versions.specs.Versions.{share_of};
ghost use Rattle.snooping.specs.Lines.{blank, cache_lines, cache_line, version_at, with_taken, with_next, ended, unlinked};

use crate::line::Line;
use crate::state::LineEvent;
use versions::{Class, ClassSet, Order, Version};

// It is copied only where four of them are made.
#[derive(Clone, Copy)]
pub struct Cache {
    lines: [Line; 16],
}

impl Cache {
    // All lines are invalid.
    pub fn new() -> Cache
        ensures { cache_lines result ≡ replicate 16 blank }
    {
        Cache {
            lines: [Line::invalid(); 16],
        }
    }

    // Line c.
    pub fn line(&self, c: Class) -> Line
        ensures { result ≡ cache_line self.now c }
    {
        self.lines[c.index()]
    }

    // What the cache has of a.
    pub fn version(&self, a: u32) -> Version
        ensures { result ≡ version_at (cache_line self.now (a % 16)) a }
    {
        self.line(Class::of(a)).version(a)
    }

    // The same as two bits.
    pub fn share(&self, a: u32) -> u32
        ensures value { result ≡ share_of (version_at (cache_line self.now (a % 16)) a) }
        ensures bound { result < 4 }
    {
        self.line(Class::of(a)).share(a)
    }

    // Takes the word w of an access of a. (One line is lent inside the method, here and in those below.)
    pub fn take(&mut self, event: LineEvent, a: u32, w: u32)
        ensures { cache_lines self.new ≡ slice_set (cache_lines self.old) (a % 16) (with_taken event (cache_line self.old (a % 16)) a w) }
    {
        let line = &mut self.lines[Class::of(a).index()];
        line.take(event, a, w);
    }

    // Points the line of a to another processor's line, or to none.
    pub fn link(&mut self, a: u32, next: Option<u32>)
        ensures { cache_lines self.new ≡ slice_set (cache_lines self.old) (a % 16) (with_next (cache_line self.old (a % 16)) next) }
    {
        let line = &mut self.lines[Class::of(a).index()];
        line.link(next);
    }

    // Ends what the line of a holds.
    pub fn end(&mut self, a: u32, event: LineEvent)
        ensures { cache_lines self.new ≡ slice_set (cache_lines self.old) (a % 16) (ended event (cache_line self.old (a % 16))) }
    {
        let line = &mut self.lines[Class::of(a).index()];
        line.end(event);
    }

    // Ends what all lines hold. Those outside of `valid` hold nothing and are left alone, so the event must leave such a line as it is. That all
    // sixteen are there, here and below, is a clause because the array behind a reference tells it to no proof.
    pub fn end_all(&mut self, event: LineEvent, valid: ClassSet)
        requires full { length (cache_lines self.old) ≡ 16 }
        requires ends { ended event blank ≡ blank }
        requires outside { (c : ℕ) → c < 16 → has valid c ≡ false → cache_line self.old c ≡ blank }
        ensures { cache_lines self.new ≡ map (ended event) (cache_lines self.old) }
    {
        let mut left = valid;
        while let Some(c) = left.take_lowest() {
            let line = &mut self.lines[c.index()];
            line.end(event);
        }
    }

    // Ends pointers to processors without a task; the lines outside of `touched` have none.
    pub fn unlink(&mut self, order: &Order, running: &[bool], touched: ClassSet)
        requires full { length (cache_lines self.old) ≡ 16 }
        requires running { (q : ℕ) → slice_index_or running.now q false ≡ is_some (place_in order.now q) }
        requires outside { (c : ℕ) → c < 16 → has touched c ≡ false → unlinked order.now (cache_line self.old c) ≡ cache_line self.old c }
        ensures { cache_lines self.new ≡ map (unlinked order.now) (cache_lines self.old) }
    {
        let mut left = touched;
        while let Some(c) = left.take_lowest() {
            let line = &mut self.lines[c.index()];
            line.unlink(order, running);
        }
    }
}
