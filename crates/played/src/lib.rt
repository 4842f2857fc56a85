// What the programs `play` and `central` print, on any version store over any memory: two files are read, played, and listed.
#![tactic(auto)]

ghost use Rattle.std.specs.Prelude.{◌≡◌, ℕ, ◌≤◌, List, length, IfOk, string_bytes};
ghost use Rattle.player.specs.Capacity.{most_bytes};
ghost use Rattle.player.specs.Listings.{listing_played};

use files::first_bytes;
use player::{Input, MOST_BYTES, MOST_TURNS, RowList, listing, play_over, words_of};
use std::alloc::{AllocError, Global};
use std::fs::Files;
use stores::{Turn, VersionStore};

// The listing of the turns of `turns.txt`, played over a memory that `image.bin` fills. What the two files hold, no contract can say:
// it is the listing of some image and text, neither longer than what is read.
pub fn listing_of_files<S: VersionStore>(
    rt: &(impl Files + AllocGlobal),
    memory: S::Below,
) -> anyhow::Result<String>
where
    S::Below: Drop,
    requires { S.Below.Memory.sound memory }
    ensures { IfOk result (λ listing. (image : List ℕ) × (text : List ℕ) × (length image ≤ most_bytes) × (length text ≤ most_bytes) × (string_bytes listing ≡ listing_played (S.Below.Memory.words memory) image text)) }
{
    let image = first_bytes(rt, "image.bin", MOST_BYTES)?;
    let text = first_bytes(rt, "turns.txt", MOST_BYTES)?;
    let input = Input {
        image: image.as_slice(),
        text: text.as_slice(),
    };
    Ok(listing_of::<S>(rt.alloc(), memory, input)?)
}

// The listing of a text of turns that is played over an image. The memory is let go with its words, which the listing has shown.
pub fn listing_of<S: VersionStore>(
    heap: Global,
    memory: S::Below,
    input: Input,
) -> Result<String, AllocError>
where
    S::Below: Drop,
    requires { S.Below.Memory.sound memory }
    ensures { IfOk result (λ listing. string_bytes listing ≡ listing_played (S.Below.Memory.words memory) input.entry.image.now input.entry.text.now) }
{
    let mut turn_row = vec![in heap; Turn::Start { p: 0 }; MOST_TURNS]?;
    let mut answer_row = vec![in heap; Ok(0); MOST_TURNS]?;
    let mut turns = RowList::new(turn_row.as_mut_slice());
    let mut answers = RowList::new(answer_row.as_mut_slice());
    let Input { image, text } = input;
    let (mut memory, outcome) = play_over::<S>(memory, image, text, &mut turns, &mut answers);
    // The turns are played: their row is given back before the words take one.
    drop(turns);
    drop(turn_row);
    let words = words_of(heap, &mut memory)?;
    let listed = listing(heap, answers.items(), outcome, words.as_slice())?;
    Ok(listed)
}
