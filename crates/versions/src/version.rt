// What one task has at one address, and what follows from the versions of one address in task order.
ghost use Rattle.std.specs.Prelude.{◌≡◌, ℕ, ◌<◌};
ghost use Rattle.versions.specs.Versions.{no_version, is_held, share_of, with_load, with_store};

// The mark says that the task has loaded here, since it last dropped the address, while it had no own word here; the own
// word is what it stored last.
#[derive(Clone, Copy)]
pub struct Version {
    pub mark: bool,
    pub own: Option<u32>,
}

impl Version {
    // Neither mark nor own word. By this name, which says what a task has that holds nothing; a default would not.
    pub fn none() -> Version
        ensures { result ≡ no_version }
    {
        Version {
            mark: false,
            own: None,
        }
    }

    // Whether the task holds the address.
    pub fn is_held(self) -> bool
        ensures { result ≡ is_held self }
    {
        self.mark || self.own.is_some()
    }

    // Its mark and whether it has an own word, as two bits of a number.
    pub fn share(self) -> u32
        ensures value { result ≡ share_of self }
        ensures bound { result < 4 }
    {
        (self.mark as u32) | (self.own.is_some() as u32) << 1
    }

    // After a load: marked, unless the word is the task's own.
    pub fn with_load(self) -> Version
        ensures { result ≡ with_load self }
    {
        Version {
            mark: self.mark || self.own.is_none(),
            own: self.own,
        }
    }

    // After a store of w. A mark stays.
    pub fn with_store(self, w: u32) -> Version
        ensures { result ≡ with_store w self }
    {
        Version {
            mark: self.mark,
            own: Some(w),
        }
    }
}
