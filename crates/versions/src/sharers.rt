// Which of the active tasks have a mark at one address, and which an own word. All is found of these bits without a loop: where a search of
// the tasks would end can't be foreseen, and a wrong guess costs more than to ask all four.
ghost use Rattle.std.specs.Prelude.{◌≡◌, ℕ, ◌*◌, ◌<◌, ◌≤◌, [], ◌∷◌, ◌++◌, List, length, get_or, take};
ghost use Rattle.versions.specs.declared.version.Version.{Version};
ghost use Rattle.versions.specs.Versions.{no_version, share_of};
ghost use Rattle.versions.specs.Sharers.{shared_address, SharersOf, SquashedFrom, bit_set, LastBelow, FirstFrom, owns_at, holds_at};

// The bits of all own words.
const OWNS: u32 = 0b1010_1010;

// Bit 2 i is the mark of the task at place i, and the bit after it says whether this task has an own word: so a version's two bits are put in at
// once. The address is told with them: they say nothing of another.
#[derive(Clone, Copy)]
pub struct Sharers {
    address: u32,
    shares: u32,
}

impl Sharers {
    // Of address a, before any task was asked.
    pub fn new(a: u32) -> Sharers
        ensures address { shared_address result ≡ a }
        ensures none { SharersOf [] result }
    {
        Sharers {
            address: a,
            shares: 0,
        }
    }

    // Adds the two bits of the task at place k, the next one. k and the bits are bounded by clauses: how many there are, no type says.
    pub fn add(&mut self, k: usize, share: u32)
        requires place { k < 4 }
        requires bits { share < 4 }
        ensures address { shared_address self.new ≡ shared_address self.old }
        ensures more { (vs : List Version) (v : Version) → SharersOf vs self.old → length vs ≡ k → share ≡ share_of v → SharersOf (vs ++ v ∷ []) self.new }
    {
        self.shares |= share << (2 * k);
    }

    // Forgets all but the first n: where all four processors were asked, those past the tasks that there are.
    pub fn keep(&mut self, n: usize)
        requires { n ≤ 4 }
        ensures address { shared_address self.new ≡ shared_address self.old }
        ensures first { (vs : List Version) → SharersOf vs self.old → SharersOf (take n vs) self.new }
    {
        self.shares &= (1 << (2 * n)) - 1;
    }

    // The place of the nearest task before place k with an own word. The bits mean what the clause says, here and below, since no type can
    // name the versions that they are of.
    pub fn owner_before(self, k: usize) -> Option<usize>
        requires { k ≤ 4 }
        ensures { (vs : List Version) → SharersOf vs self → LastBelow (owns_at vs) k result }
    {
        let bit = last_below(self.shares & OWNS, 2 * k)?;
        Some(bit / 2)
    }

    // The place of the nearest task before place k that holds the address.
    pub fn holder_before(self, k: usize) -> Option<usize>
        requires { k ≤ 4 }
        ensures { (vs : List Version) → SharersOf vs self → LastBelow (holds_at vs) k result }
    {
        let bit = last_below(self.shares, 2 * k)?;
        Some(bit / 2)
    }

    // The place of the first task from place k on that holds the address.
    pub fn holder_from(self, k: usize) -> Option<usize>
        requires { k ≤ 4 }
        ensures { (vs : List Version) → SharersOf vs self → FirstFrom (holds_at vs) k result }
    {
        let bit = first_from(self.shares, 2 * k)?;
        Some(bit / 2)
    }

    // The place of the first task from place k on with an own word.
    pub fn owner_from(self, k: usize) -> Option<usize>
        requires { k ≤ 4 }
        ensures { (vs : List Version) → SharersOf vs self → FirstFrom (owns_at vs) k result }
    {
        let bit = first_from(self.shares & OWNS, 2 * k)?;
        Some(bit / 2)
    }

    // Whether the task at a place has a mark.
    pub fn is_marked(self, place: usize) -> bool
        requires { place ≤ 4 }
        ensures { (vs : List Version) → SharersOf vs self → result ≡ (get_or vs place no_version).mark }
    {
        (self.shares >> (2 * place)) & 1 == 1
    }

    // The place of the first task that a store to the address squashes, by the task before place k; all after it go too. The first bit decides: if it
    // is a mark, this task is squashed; if it is an own word, it hides the store from all marks after it.
    pub fn squashed_from(self, k: usize) -> Option<usize>
        requires { k ≤ 4 }
        ensures { (vs : List Version) → SharersOf vs self → SquashedFrom vs k result }
    {
        let first = first_from(self.shares, 2 * k)?;
        if first % 2 == 0 {
            Some(first / 2)
        } else {
            None
        }
    }
}

// The place of the highest bit below k that is set.
fn last_below(bits: u32, k: usize) -> Option<usize>
    requires { k ≤ 8 }
    ensures { LastBelow (bit_set bits) k result }
{
    let earlier = bits & ((1 << k) - 1);
    if earlier == 0 {
        return None;
    }
    Some(earlier.ilog2() as usize)
}

// The place of the lowest bit from k on that is set.
fn first_from(bits: u32, k: usize) -> Option<usize>
    requires { k ≤ 8 }
    ensures { FirstFrom (bit_set bits) k result }
{
    let later = bits >> k;
    if later == 0 {
        return None;
    }
    Some(k + later.trailing_zeros() as usize)
}
