// The state of a line, and how it goes on with each event.
ghost use Rattle.std.specs.Prelude.{◌≡◌};
ghost use Rattle.snooping.specs.States.{has_l, has_s, next_state};

// L is the task's mark, and S says that the line's word is the task's own.
#[derive(Clone, Copy, PartialEq, Debug)]
pub enum LineState {
    // Neither bit: the line holds nothing.
    Invalid = 0,
    // L alone: a copy of another task's word or of the memory's.
    Loaded = 1,
    // S alone: stored before any load.
    Stored = 2,
    // L and S: loaded, then stored.
    Both = 3,
}

// What happens to a line: an access of its own processor, or the end of what it holds.
#[derive(Clone, Copy)]
pub enum LineEvent {
    Load,
    Store,
    Squash,
    Commit,
    Replace,
}

impl LineState {
    // The bit L.
    pub fn has_l(self) -> bool
        ensures { result ≡ has_l self }
    {
        (self as u8) & 1 == 1
    }

    // The bit S.
    pub fn has_s(self) -> bool
        ensures { result ≡ has_s self }
    {
        (self as u8) & 2 == 2
    }

    // Goes on to the next state, in place. The table of states and events stands here as a whole.
    pub(crate) fn step(&mut self, event: LineEvent)
        ensures { self.new ≡ next_state self.old event }
    {
        *self = match (*self, event) {
            (LineState::Invalid, LineEvent::Load) => LineState::Loaded,
            (LineState::Loaded, LineEvent::Load) => LineState::Loaded,
            (LineState::Stored, LineEvent::Load) => LineState::Stored,
            (LineState::Both, LineEvent::Load) => LineState::Both,
            (LineState::Invalid, LineEvent::Store) => LineState::Stored,
            (LineState::Loaded, LineEvent::Store) => LineState::Both,
            (LineState::Stored, LineEvent::Store) => LineState::Stored,
            (LineState::Both, LineEvent::Store) => LineState::Both,
            (_, LineEvent::Squash) => LineState::Invalid,
            (_, LineEvent::Commit) => LineState::Invalid,
            (_, LineEvent::Replace) => LineState::Invalid,
        };
    }
}
