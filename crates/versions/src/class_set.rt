// A set of classes of addresses. A task has few lines or rows: a store that keeps the set of their classes need not look at all sixteen.
ghost use Rattle.std.specs.Prelude.{◌≡◌, ℕ, ◌<◌, true, false, ◌&&◌, ◌||◌, not, ◌==◌, Some, IfSome, IfNone};
ghost use Rattle.versions.specs.ClassSets.{has, bits_of, Lowest};

use crate::processor::Class;

// Class c is in the set where bit c is 1.
#[derive(Clone, Copy)]
pub struct ClassSet {
    bits: u16,
}

impl ClassSet {
    // No class.
    pub fn new() -> ClassSet
        ensures { (c : ℕ) → has result c ≡ false }
    {
        ClassSet { bits: 0 }
    }

    // Puts class c in.
    pub fn insert(&mut self, c: Class)
        ensures { (d : ℕ) → has self.new d ≡ (d == c || has self.old d) }
    {
        self.bits |= 1 << c.index();
    }

    // Whether class c is in.
    pub fn contains(self, c: Class) -> bool
        ensures { result ≡ has self c }
    {
        (self.bits >> c.index()) & 1 == 1
    }

    // Takes the lowest class out, if there is one.
    pub fn take_lowest(&mut self) -> Option<Class>
        ensures none { IfNone result ((c : ℕ) → c < 16 → has self.old c ≡ false) }
        ensures lowest { IfSome result (λ c. Lowest self.old c) }
        ensures rest { IfSome result (λ c. (d : ℕ) → d < 16 → has self.new d ≡ (not (d == c) && has self.old d)) }
        ensures fewer { IfSome result (λ c. bits_of self.new < bits_of self.old) }
    {
        if self.bits == 0 {
            return None;
        }
        let c = self.bits.trailing_zeros();
        // The number before has all bits but the lowest, and others below it.
        self.bits &= self.bits - 1;
        Some(Class::of(c))
    }

    // The classes that are in either of two sets.
    pub fn or(self, other: ClassSet) -> ClassSet
        ensures { (c : ℕ) → has result c ≡ (has self c || has other c) }
    {
        ClassSet {
            bits: self.bits | other.bits,
        }
    }

    // The classes that are in both of two sets.
    pub fn and(self, other: ClassSet) -> ClassSet
        ensures { (c : ℕ) → has result c ≡ (has self c && has other c) }
    {
        ClassSet {
            bits: self.bits & other.bits,
        }
    }
}
