// Playing an image and a text of turns as the programs do, with the listing in the caller's buffer.
ghost use Rattle.std.specs.Prelude.{◌≡◌, ◌+◌, ◌*◌, ◌≤◌, ◌++◌, length, take, replicate};
ghost use Rattle.arrayvec.specs.ArrayString.{array_string_len};
ghost use Rattle.memory.specs.Words.{MemorySize};
ghost use Rattle.memory.specs.Rows.{words_in};
ghost use Rattle.player.specs.Capacity.{most_bytes, most_turns};
ghost use Rattle.player.specs.Listings.{answer_lines, listing_of, listing_played, word_lines};
ghost use Rattle.model.specs.Listed.{ListedIn};

use arrayvec::ArrayString;
use memory::{MOST_WORDS, Memory, WordMemory};
use player::{
    Input, Lists, MOST_BYTES, MOST_TURNS, PlayerFault, RowList, answer_line, fault_line, play_on,
    tasks_line, word_line,
};
use stores::{Answer, CentralBuffer, SnoopingStore, Turn, VersionStore};

// More bytes than any listing has: at most 19 for each answer, a line's most for the number of tasks, and 19 for each word.
const MOST_LISTED: usize = 131072;

type Told = ArrayString<MOST_LISTED>;

// As many bytes as the programs read of a file.
fn start_of(bytes: &[u8]) -> &[u8]
    ensures { result.now ≡ take most_bytes bytes.now }
{
    if bytes.len() < MOST_BYTES {
        return bytes;
    }
    &bytes[..MOST_BYTES]
}

// Plays over some words, and writes the listing to the buffer. A library for C allocates nothing, so the rows are of fixed length. (In
// `played`, which the programs share, they are `Vec`s.)
fn play<'a, 'b, S: VersionStore<Below = WordMemory<'a>>>(
    row: &'a mut [u32; MOST_WORDS],
    image: &'b [u8],
    text: &'b [u8],
    listing: &mut [u8],
) -> usize
    requires words { (memory : _) → ⟦<S::Below as Memory>⟧.words memory ≡ words_in memory }
    requires sound { (memory : _) → MemorySize (length (words_in memory)) → ⟦<S::Below as Memory>⟧.sound memory }
    ensures { ListedIn (listing_played row.old (take most_bytes image.now) (take most_bytes text.now)) listing.old result listing.new }
{
    let mut turns = [Turn::Start { p: 0 }; MOST_TURNS];
    let mut answers = [Ok(0); MOST_TURNS];
    let mut lists = Lists {
        turns: RowList::new(&mut turns),
        answers: RowList::new(&mut answers),
    };
    let input = Input {
        image: start_of(image),
        text: start_of(text),
    };
    let (memory, outcome) = play_on::<S>(WordMemory::open(row), input, &mut lists);
    list(lists.answers.items(), outcome, memory.close(), listing)
}

// Writes a listing to the buffer if it fits, and gives its length.
fn list(
    answers: &[Answer],
    outcome: Result<u32, PlayerFault>,
    words: &[u32],
    listing: &mut [u8],
) -> usize
    requires turns { length answers.now ≤ most_turns }
    requires size { length words.now ≤ 4096 }
    ensures { ListedIn (listing_of answers.now outcome words.now) listing.old result listing.new }
{
    let mut told = Told::new();
    match outcome {
        Ok(tasks) => {
            tell_answers(answers, &mut told);
            told.push_str(tasks_line(tasks).as_str());
            tell_words(words, &mut told);
        }
        Err(fault) => told.push_str(fault_line(fault).as_str()),
    }
    let n = told.len();
    if n <= listing.len() {
        listing[..n].copy_from_slice(told.as_bytes());
    }
    n
}

// Adds the lines of the answers.
fn tell_answers(answers: &[Answer], told: &mut Told)
    requires turns { length answers.now ≤ most_turns }
    requires room { array_string_len told.old + 19 * length answers.now ≤ MOST_LISTED }
    ensures text { told.new.bytes ≡ told.old.bytes ++ answer_lines answers.now }
    ensures short { array_string_len told.new ≤ array_string_len told.old + 19 * length answers.now }
{
    for (i, answer) in answers.iter().enumerate() {
        told.push_str(answer_line(i + 1, *answer).as_str());
    }
}

// Adds the lines of the words that are not 0.
fn tell_words(words: &[u32], told: &mut Told)
    requires size { length words.now ≤ 4096 }
    requires room { array_string_len told.old + 19 * length words.now ≤ MOST_LISTED }
    ensures { told.new.bytes ≡ told.old.bytes ++ word_lines words.now }
{
    for (a, word) in words.iter().enumerate() {
        told.push_str(word_line(a, *word).as_str());
    }
}

// On the snooping store, as the program `play`.
#[unsafe(no_mangle)]
pub extern "C" fn model_play_snooping(image: &[u8], text: &[u8], listing: &mut [u8]) -> usize
    ensures { ListedIn (listing_played (replicate 4096 0) (take most_bytes image.now) (take most_bytes text.now)) listing.old result listing.new }
{
    let mut row = [0; MOST_WORDS];
    play::<SnoopingStore<WordMemory>>(&mut row, image, text, listing)
}

// On the central buffer, as the program `central`.
#[unsafe(no_mangle)]
pub extern "C" fn model_play_central(image: &[u8], text: &[u8], listing: &mut [u8]) -> usize
    ensures { ListedIn (listing_played (replicate 4096 0) (take most_bytes image.now) (take most_bytes text.now)) listing.old result listing.new }
{
    let mut row = [0; MOST_WORDS];
    play::<CentralBuffer<WordMemory>>(&mut row, image, text, listing)
}
