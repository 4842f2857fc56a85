// One line of a processor's cache.
ghost use Rattle.std.specs.Prelude.{◌≡◌, ℕ, ◌<◌, false, not, ◌&&◌, is_some, slice_index_or};
ghost use Rattle.versions.specs.Orders.{place_in};
ghost use Rattle.versions.specs.Versions.{is_own, share_of};
ghost use Rattle.snooping.specs.Lines.{blank, version_at, with_taken, with_next, ended, unlinked};

use crate::state::{LineEvent, LineState};
use versions::{Order, Version};

// State, tag, word and pointer stand side by side: they are compared with the circuit's, also of an invalid line. The tag is the whole address. The pointer names
// the processor whose line is next in the address's version ordering list. An invalid line has no tag, word or pointer:
// zeros and none. The pointer is a number, as users read it: `Processor` is not theirs.
#[derive(Clone, Copy, PartialEq, Debug)]
pub struct Line {
    pub state: LineState,
    pub tag: u32,
    pub word: u32,
    pub next: Option<u32>,
}

impl Line {
    // An invalid line.
    pub(crate) fn invalid() -> Line
        ensures { result ≡ blank }
    {
        Line {
            state: LineState::Invalid,
            tag: 0,
            word: 0,
            next: None,
        }
    }

    // What the line has of address a: nothing, if it is the line of another. It is found without a branch: whose line it is can't be foreseen.
    pub(crate) fn version(&self, a: u32) -> Version
        ensures { result ≡ version_at self.now a }
    {
        let same = self.tag == a;
        Version {
            mark: same & self.state.has_l(),
            own: (same & self.state.has_s()).then_some(self.word),
        }
    }

    // The same as two bits, which are those of the state.
    pub(crate) fn share(&self, a: u32) -> u32
        ensures value { result ≡ share_of (version_at self.now a) }
        ensures bound { result < 4 }
    {
        let same = self.tag == a;
        self.state as u32 * same as u32
    }

    // Whether a store to a needs no bus: the line has an own word of a, and nobody later has a line for a.
    pub(crate) fn takes_store(&self, a: u32) -> bool
        ensures { result ≡ (is_own (version_at self.now a) && not (is_some self.now.next)) }
    {
        self.version(a).own.is_some() && self.next.is_none()
    }

    // Takes the word w of an access of a: what a load gave, or what is stored.
    pub(crate) fn take(&mut self, event: LineEvent, a: u32, w: u32)
        ensures { self.new ≡ with_taken event self.old a w }
    {
        self.state.step(event);
        self.tag = a;
        self.word = w;
    }

    // Points to another processor's line, or to none.
    pub(crate) fn link(&mut self, next: Option<u32>)
        ensures { self.new ≡ with_next self.old next }
    {
        self.next = next;
    }

    // Ends what the line holds.
    pub(crate) fn end(&mut self, event: LineEvent)
        ensures { self.new ≡ ended event self.old }
    {
        self.state.step(event);
        self.tag = 0;
        self.word = 0;
        self.next = None;
    }

    // Ends a pointer to a processor that has no task: `running` has of each whether it has one, and last, for a line without a pointer, false. The
    // pointer is written in any case, since whether there is one can't be foreseen. (The order is named by the contract alone.)
    pub(crate) fn unlink(&mut self, _order: &Order, running: &[bool])
        requires { (q : ℕ) → slice_index_or running.now q false ≡ is_some (place_in _order.now q) }
        ensures { self.new ≡ unlinked _order.now self.old }
    {
        let kept = self.next;
        let p = kept.unwrap_or(4) as usize;
        let stays = p < running.len() && running[p];
        self.next = if stays { kept } else { None };
    }
}
