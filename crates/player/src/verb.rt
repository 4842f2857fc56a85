// The verbs of turns, and how each is written.
ghost use Rattle.std.specs.Prelude.{◌≡◌};
ghost use Rattle.player.specs.Verbs.{verb_named};

#[derive(Clone, Copy)]
pub enum Verb {
    Start,
    Load,
    Store,
    Squash,
    Commit,
    Replace,
}

impl Verb {
    // The verb that is written so, if there is one. (No `TryFrom`: that no verb is written so is a fault of the line, and the line
    // tells it.)
    pub fn named(word: &[u8]) -> Option<Verb>
        ensures { result ≡ verb_named word.now }
    {
        match word {
            b"start" => Some(Verb::Start),
            b"load" => Some(Verb::Load),
            b"store" => Some(Verb::Store),
            b"squash" => Some(Verb::Squash),
            b"commit" => Some(Verb::Commit),
            b"replace" => Some(Verb::Replace),
            _ => None,
        }
    }
}
