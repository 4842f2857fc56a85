// Short names of the turns.
ghost use Rattle.std.specs.Prelude.{◌≡◌};
ghost use Rattle.versions.specs.declared.turn.Turn.TheVariants.{Start, Load, Store, Squash, Commit, Replace};

use stores::Turn;

pub fn start(p: u32) -> Turn
    ensures { result ≡ Start p }
{
    Turn::Start { p }
}

pub fn load(p: u32, a: u32) -> Turn
    ensures { result ≡ Load p a }
{
    Turn::Load { p, a }
}

pub fn store(p: u32, a: u32, w: u32) -> Turn
    ensures { result ≡ Store p a w }
{
    Turn::Store { p, a, w }
}

pub fn squash(p: u32) -> Turn
    ensures { result ≡ Squash p }
{
    Turn::Squash { p }
}

pub fn commit(p: u32) -> Turn
    ensures { result ≡ Commit p }
{
    Turn::Commit { p }
}

pub fn replace(p: u32, a: u32) -> Turn
    ensures { result ≡ Replace p a }
{
    Turn::Replace { p, a }
}
