// Plays the turns of `turns.txt` on the snooping store, over 4,096 words that `image.bin` fills, and prints the listing.
#![tactic(auto)]

use memory::{MOST_WORDS, WordMemory};
use played::listing_of_files;
use stores::SnoopingStore;

// As the program `central` but for the store. What is left here names it: in `played` these lines would need clauses on word memory
// below any store.
fn main(rt: HostRuntime) -> anyhow::Result<()> {
    let mut words = vec![in rt.alloc(); 0u32; MOST_WORDS]?;
    let memory = WordMemory::open(words.as_mut_slice());
    let listing = listing_of_files::<SnoopingStore<WordMemory>>(&rt, memory)?;
    rt.print(listing.as_str())?;
    Ok(())
}
