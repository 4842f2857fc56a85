// Playing a text of turns over a memory that an image fills: image first, then the whole text, then turn by turn.
ghost use Rattle.std.specs.Prelude.{◌≡◌, length, take, drop, Err};
ghost use Rattle.versions.specs.Plain.{active_tasks, answers_of, state_after_all};
ghost use Rattle.versions.specs.Sequential.{ReadsOn, paired};
ghost use Rattle.versions.specs.Taken.{ShowsAll};
ghost use Rattle.player.specs.declared.fault.PlayerFault.TheVariants.{Image as AnImage};
ghost use Rattle.player.specs.Faults.{ImageFault};
ghost use Rattle.player.specs.Listings.{AlikeLists, ToldAlike};
ghost use Rattle.player.specs.Lists.{content, free};
ghost use Rattle.player.specs.Scripts.{Gained, PlayedFrom, PlayedOver, lists_of, places_answer, script_of, text_script, told};

use crate::fault::{ListFault, PlayerFault};
use crate::list::RowList;
use crate::loading::Loading;
use crate::text::read_turns;
use memory::Memory;
use stores::{Answer, CentralBuffer, SnoopingStore, Turn, VersionStore};

// As much as is read of the file of an image, and of that of a text.
pub const MOST_BYTES: usize = 32768;

// As many turns, and as many answers, as the lists of the programs have places for.
pub const MOST_TURNS: usize = 2048;

// The lists for the turns of a text and for the answers to them.
#[derive(Drop)]
pub struct Lists<'a> {
    pub turns: RowList<'a, Turn>,
    pub answers: RowList<'a, Answer>,
}

// What is played: a text of turns, over a memory that an image fills.
#[derive(Clone, Copy)]
pub struct Input<'a> {
    pub image: &'a [u8],
    pub text: &'a [u8],
}

// Loads an image into a memory and plays a text of turns over it on a version store S: image first, then the whole text, then
// turn by turn. It gives the memory back, with the number of active tasks or the fault. A refused image changes nothing.
pub fn play_over<S: VersionStore>(
    memory: S::Below,
    image: &[u8],
    text: &[u8],
    turns: &mut RowList<Turn>,
    answers: &mut RowList<Answer>,
) -> (S::Below, Result<u32, PlayerFault>)
    requires { S.Below.Memory.sound memory }
    ensures performed { PlayedFrom (S.Below.Memory.words memory) image.now text.now (lists_of turns.old answers.old) (lists_of turns.new answers.new) result.1 (S.Below.Memory.words result.0) }
    ensures refused { (fault : ImageFault) → result.1 ≡ Err (AnImage fault) → result.0 ≡ memory }
    ensures beside { S.Below.Memory.spare result.0 ≡ S.Below.Memory.spare memory }
    ensures kept { S.Below.Memory.sound result.0 }
{
    let mut loading = Loading::new(memory);
    if let Err(fault) = loading.load(image) {
        return (loading.close(), Err(PlayerFault::from(fault)));
    }
    let mut store = loading.open::<S>();
    let outcome = play_text(&mut store, text, turns, answers);
    (store.close(), outcome)
}

// The same, where image and text, and the two lists, lie side by side.
pub fn play_on<S: VersionStore>(
    memory: S::Below,
    input: Input,
    lists: &mut Lists,
) -> (S::Below, Result<u32, PlayerFault>)
    requires { S.Below.Memory.sound memory }
    ensures performed { PlayedOver (S.Below.Memory.words memory) input.entry lists.old lists.new result.1 (S.Below.Memory.words result.0) }
    ensures refused { (fault : ImageFault) → result.1 ≡ Err (AnImage fault) → result.0 ≡ memory }
    ensures beside { S.Below.Memory.spare result.0 ≡ S.Below.Memory.spare memory }
    ensures kept { S.Below.Memory.sound result.0 }
{
    play_over::<S>(
        memory,
        input.image,
        input.text,
        &mut lists.turns,
        &mut lists.answers,
    )
}

// Plays the same text after the same image on a snooping store over one memory and on a central buffer over another.
// Over memories with equal words, and with lists that hold equal answers and have equal room, both are told the same and
// have the same answers and words in the end, so that their listings are equal.
pub fn play_both<M: Memory, N: Memory>(
    one: M,
    other: N,
    image: &[u8],
    text: &[u8],
    turns: &mut RowList<Turn>,
    snooped: &mut RowList<Answer>,
    again: &mut RowList<Turn>,
    buffered: &mut RowList<Answer>,
) -> ((M, Result<u32, PlayerFault>), (N, Result<u32, PlayerFault>))
    requires one_sound { M.Memory.sound one }
    requires other_sound { N.Memory.sound other }
    ensures one { PlayedFrom (M.Memory.words one) image.now text.now (lists_of turns.old snooped.old) (lists_of turns.new snooped.new) result.0.1 (M.Memory.words result.0.0) }
    ensures other { PlayedFrom (N.Memory.words other) image.now text.now (lists_of again.old buffered.old) (lists_of again.new buffered.new) result.1.1 (N.Memory.words result.1.0) }
    ensures alike { M.Memory.words one ≡ N.Memory.words other → AlikeLists (lists_of turns.old snooped.old) (lists_of again.old buffered.old) → ToldAlike (lists_of turns.new snooped.new) (lists_of again.new buffered.new) result.0.1 result.1.1 (M.Memory.words result.0.0) (N.Memory.words result.1.0) }
    ensures refused { ((fault : ImageFault) → result.0.1 ≡ Err (AnImage fault) → result.0.0 ≡ one) × ((fault : ImageFault) → result.1.1 ≡ Err (AnImage fault) → result.1.0 ≡ other) }
    ensures beside { (M.Memory.spare result.0.0 ≡ M.Memory.spare one) × (N.Memory.spare result.1.0 ≡ N.Memory.spare other) }
    ensures kept { M.Memory.sound result.0.0 × N.Memory.sound result.1.0 }
{
    let snooping = play_over::<SnoopingStore<M>>(one, image, text, turns, snooped);
    let central = play_over::<CentralBuffer<N>>(other, image, text, again, buffered);
    (snooping, central)
}

// The same, where image and text, and each store's two lists, lie side by side.
pub fn play_both_on<M: Memory, N: Memory>(
    one: M,
    other: N,
    input: Input,
    snooped: &mut Lists,
    buffered: &mut Lists,
) -> ((M, Result<u32, PlayerFault>), (N, Result<u32, PlayerFault>))
    requires one_sound { M.Memory.sound one }
    requires other_sound { N.Memory.sound other }
    ensures one { PlayedOver (M.Memory.words one) input.entry snooped.old snooped.new result.0.1 (M.Memory.words result.0.0) }
    ensures other { PlayedOver (N.Memory.words other) input.entry buffered.old buffered.new result.1.1 (N.Memory.words result.1.0) }
    ensures alike { M.Memory.words one ≡ N.Memory.words other → AlikeLists snooped.old buffered.old → ToldAlike snooped.new buffered.new result.0.1 result.1.1 (M.Memory.words result.0.0) (N.Memory.words result.1.0) }
    ensures refused { ((fault : ImageFault) → result.0.1 ≡ Err (AnImage fault) → result.0.0 ≡ one) × ((fault : ImageFault) → result.1.1 ≡ Err (AnImage fault) → result.1.0 ≡ other) }
    ensures beside { (M.Memory.spare result.0.0 ≡ M.Memory.spare one) × (N.Memory.spare result.1.0 ≡ N.Memory.spare other) }
    ensures kept { M.Memory.sound result.0.0 × N.Memory.sound result.1.0 }
{
    let snooping = play_on::<SnoopingStore<M>>(one, input, snooped);
    let central = play_on::<CentralBuffer<N>>(other, input, buffered);
    (snooping, central)
}

// Reads the turns of a text into a list, plays them, and adds each answer to another list. A text with a fault is not
// played. Where there is no place for an answer, its turn and all after it are not played. It gives the number of
// active tasks.
pub fn play_text<S: VersionStore>(
    store: &mut S,
    text: &[u8],
    turns: &mut RowList<Turn>,
    answers: &mut RowList<Answer>,
) -> Result<u32, PlayerFault>
    requires { S.VersionStore.sound store.old }
    ensures answer { result ≡ told (text_script (free turns.old) (free answers.old) text.now).answer (active_tasks (S.VersionStore.plain store.new)) }
    ensures turns { Gained turns.old (text_script (free turns.old) (free answers.old) text.now).read turns.new }
    ensures answers { Gained answers.old (answers_of (S.VersionStore.plain store.old) (text_script (free turns.old) (free answers.old) text.now).played) answers.new }
    ensures after { S.VersionStore.plain store.new ≡ state_after_all (S.VersionStore.plain store.old) (text_script (free turns.old) (free answers.old) text.now).played }
    ensures shows { ShowsAll S.VersionStore.plain S.VersionStore.shows store.old (text_script (free turns.old) (free answers.old) text.now).played store.new }
    ensures sequential { ReadsOn (S.VersionStore.plain store.old) (paired (text_script (free turns.old) (free answers.old) text.now).played (drop (length (content answers.old)) (content answers.new))) (S.VersionStore.plain store.new) }
    ensures beside { S.VersionStore.spare store.new ≡ S.VersionStore.spare store.old }
    ensures kept { S.VersionStore.sound store.new }
{
    let before = turns.len();
    read_turns(text, turns)?;
    play_each(store, &turns.items()[before..], answers)
}

// The same, where the two lists lie side by side.
pub fn play_text_on<S: VersionStore>(
    store: &mut S,
    text: &[u8],
    lists: &mut Lists,
) -> Result<u32, PlayerFault>
    requires { S.VersionStore.sound store.old }
    ensures answer { result ≡ told (script_of lists.old text.now).answer (active_tasks (S.VersionStore.plain store.new)) }
    ensures turns { Gained lists.old.turns (script_of lists.old text.now).read lists.new.turns }
    ensures answers { Gained lists.old.answers (answers_of (S.VersionStore.plain store.old) (script_of lists.old text.now).played) lists.new.answers }
    ensures after { S.VersionStore.plain store.new ≡ state_after_all (S.VersionStore.plain store.old) (script_of lists.old text.now).played }
    ensures shows { ShowsAll S.VersionStore.plain S.VersionStore.shows store.old (script_of lists.old text.now).played store.new }
    ensures sequential { ReadsOn (S.VersionStore.plain store.old) (paired (script_of lists.old text.now).played (drop (length (content lists.old.answers)) (content lists.new.answers))) (S.VersionStore.plain store.new) }
    ensures beside { S.VersionStore.spare store.new ≡ S.VersionStore.spare store.old }
    ensures kept { S.VersionStore.sound store.new }
{
    play_text(store, text, &mut lists.turns, &mut lists.answers)
}

// Plays turns one by one and adds each answer to a list, until there is no turn or no place left. It gives the number of
// active tasks. (By `play_turns`, which writes into a slice, the list would have to lend its free places and be told
// afterwards how many of them were written.)
fn play_each<S: VersionStore>(
    store: &mut S,
    turns: &[Turn],
    answers: &mut RowList<Answer>,
) -> Result<u32, PlayerFault>
    requires { S.VersionStore.sound store.old }
    ensures answer { result ≡ told (places_answer (free answers.old) turns.now) (active_tasks (S.VersionStore.plain store.new)) }
    ensures answers { Gained answers.old (answers_of (S.VersionStore.plain store.old) (take (free answers.old) turns.now)) answers.new }
    ensures after { S.VersionStore.plain store.new ≡ state_after_all (S.VersionStore.plain store.old) (take (free answers.old) turns.now) }
    ensures shows { ShowsAll S.VersionStore.plain S.VersionStore.shows store.old (take (free answers.old) turns.now) store.new }
    ensures beside { S.VersionStore.spare store.new ≡ S.VersionStore.spare store.old }
    ensures kept { S.VersionStore.sound store.new }
{
    for (i, turn) in turns.iter().enumerate() {
        if answers.is_full() {
            return Err(PlayerFault::Results {
                fault: ListFault::Full,
                turn: i,
            });
        }
        // There is a place, as was just tested.
        answers.push(store.take_turn(*turn)).unwrap();
    }
    Ok(store.tasks())
}
