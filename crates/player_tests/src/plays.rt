// Images and texts that are played on both stores, and their listings.
ghost use Rattle.std.specs.Prelude.{◌≤◌};

use memory::{ByteMemory, Memory, WordMemory};
use player::{
    Input, Lists, Played, RowList, listing, play_both, play_both_on, play_on, play_text, words_of,
};
use std::process::Abort;
use std::test::*;
use stores::{CentralBuffer, SnoopingStore, Turn, VersionStore};

// Plays over a memory, with eight places for turns and so many for answers.
fn plays_on<S: VersionStore, const PLACES: usize>(
    rt: &(impl Abort + AllocGlobal),
    memory: S::Below,
    image: &[u8],
    text: &str,
    lines: &str,
) -> Result<(), Fail>
where
    S::Below: Drop,
    requires places { PLACES ≤ 8 }
    requires sound { S.Below.Memory.sound memory }
{
    let mut turns = [Turn::Start { p: 0 }; 8];
    let mut answers = [Ok(0); PLACES];
    let mut lists = Lists {
        turns: RowList::new(&mut turns),
        answers: RowList::new(&mut answers),
    };
    let input = Input {
        image,
        text: text.as_bytes(),
    };
    let (mut memory, outcome) = play_on::<S>(memory, input, &mut lists);
    let words = words_of(rt.alloc(), &mut memory)?;
    let played = Played {
        answers: lists.answers.items(),
        outcome,
        words: words.as_slice(),
    };
    let told = played.to_string(rt.alloc())?;
    assert_eq!(rt; told.as_str(), lines, "{}", text);
    Ok(())
}

// On both stores.
fn plays<const PLACES: usize>(
    rt: &(impl Abort + AllocGlobal),
    image: &[u8],
    text: &str,
    lines: &str,
) -> Result<(), Fail>
    requires { PLACES ≤ 8 }
{
    plays_on::<SnoopingStore<WordMemory>, PLACES>(
        rt,
        WordMemory::open(&mut [0; 64]),
        image,
        text,
        lines,
    )?;
    plays_on::<CentralBuffer<WordMemory>, PLACES>(
        rt,
        WordMemory::open(&mut [0; 64]),
        image,
        text,
        lines,
    )
}

#[test]
fn turns_are_played_over_the_words_of_the_image(rt: HostRuntime) -> Result<(), Fail> {
    let image = [1, 0, 0, 0, 63, 0, 0, 0, 1, 0, 0, 0, 7, 1, 0, 0];
    plays::<8>(
        &rt,
        &image,
        "start 0\nload 0 63\nload 0 64\nstore 0 5 71\ncommit 0\nstart 1\nstore 1 5 9\n",
        "1 ok 0\n2 ok 263\n3 no 4\n4 ok 0\n5 ok 1\n6 ok 0\n7 ok 0\ntasks 1\nat 5 71\nat 63 263\n",
    )
}

#[test]
fn no_turn_is_no_fault(rt: HostRuntime) -> Result<(), Fail> {
    plays::<8>(&rt, &[0; 4], "", "tasks 0\n")
}

#[test]
fn the_images_fault_hides_the_texts(rt: HostRuntime) -> Result<(), Fail> {
    plays::<8>(&rt, &[], "stop 0\n", "fault image 9 0\n")?;
    plays::<8>(&rt, &[0; 4], "start 0\nstop 0\n", "fault text 13 8\n")
}

#[test]
fn a_full_list_of_turns_is_told_at_its_line(rt: HostRuntime) -> Result<(), Fail> {
    plays::<8>(
        &rt,
        &[0; 4],
        "start 0\nstart 0\nstart 0\nstart 0\nstart 0\nstart 0\nstart 0\nstart 0\nstart 0\n",
        "fault list 16 64\n",
    )
}

#[test]
fn a_full_list_of_answers_is_told_at_its_turn(rt: HostRuntime) -> Result<(), Fail> {
    let text = "start 0\nstart 1\nstart 2\n";
    plays::<2>(&rt, &[0; 4], text, "fault list 16 2\n")?;
    plays::<0>(&rt, &[0; 4], text, "fault list 16 0\n")
}

// Both stores in one call: the snooping store over words, the central buffer over bytes.
fn both_play(
    rt: &(impl Abort + AllocGlobal),
    image: &[u8],
    text: &str,
    lines: &str,
) -> Result<(), Fail> {
    let mut turns = [Turn::Start { p: 0 }; 8];
    let mut answers = [Ok(0); 8];
    let mut snooped = Lists {
        turns: RowList::new(&mut turns),
        answers: RowList::new(&mut answers),
    };
    let mut turns = [Turn::Start { p: 0 }; 8];
    let mut answers = [Ok(0); 8];
    let mut buffered = Lists {
        turns: RowList::new(&mut turns),
        answers: RowList::new(&mut answers),
    };
    let input = Input {
        image,
        text: text.as_bytes(),
    };
    let mut words = [0; 64];
    let mut bytes = [0; 256];
    let ((mut one, snooping), (mut other, central)) = play_both_on(
        WordMemory::open(&mut words),
        ByteMemory::open(&mut bytes),
        input,
        &mut snooped,
        &mut buffered,
    );
    let end = words_of(rt.alloc(), &mut one)?;
    let told = listing(
        rt.alloc(),
        snooped.answers.items(),
        snooping,
        end.as_slice(),
    )?;
    assert_eq!(rt; told.as_str(), lines, "{}", text);
    let end = words_of(rt.alloc(), &mut other)?;
    let told = listing(
        rt.alloc(),
        buffered.answers.items(),
        central,
        end.as_slice(),
    )?;
    assert_eq!(rt; told.as_str(), lines, "{}", text);
    Ok(())
}

#[test]
fn both_stores_give_one_listing(rt: HostRuntime) -> Result<(), Fail> {
    let image = [1, 0, 0, 0, 5, 0, 0, 0, 1, 0, 0, 0, 8, 0, 0, 0];
    both_play(
        &rt,
        &image,
        "start 2\nstart 0\nload 0 5\nstore 2 5 70\nload 0 5\nreplace 2 5\ncommit 0\ncommit 2\n",
        "1 ok 0\n2 ok 1\n3 ok 8\n4 ok 1\n5 no 3\n6 ok 1\n7 no 3\n8 ok 0\ntasks 0\nat 5 70\n",
    )?;
    both_play(&rt, &image, "start 0\nstore 0 5\n", "fault text 14 8\n")?;
    both_play(&rt, &image[..12], "start 0\n", "fault image 9 12\n")
}

// What an image and a text leave over 64 words: how many turns are read and answered, and the word at 5.
fn leaves<const PLACES: usize>(
    rt: &impl Abort,
    image: &[u8],
    text: &str,
    number: u8,
    place: usize,
    left: (usize, usize, u32),
) -> Result<(), Fail>
    requires { PLACES ≤ 8 }
{
    let mut turns = [Turn::Start { p: 0 }; 8];
    let mut answers = [Ok(0); PLACES];
    let mut lists = Lists {
        turns: RowList::new(&mut turns),
        answers: RowList::new(&mut answers),
    };
    let input = Input {
        image,
        text: text.as_bytes(),
    };
    let mut words = [0; 64];
    let (mut memory, outcome) = play_on::<SnoopingStore<WordMemory>>(
        WordMemory::open(&mut words),
        input,
        &mut lists,
    );
    let Err(fault) = outcome else {
        return Err(Fail::new("there was no fault"));
    };
    assert_eq!(rt;
        (fault.number(), fault.place()),
        (number, place),
        "{}",
        text
    );
    let word = memory.read(5)?;
    assert_eq!(rt;
        (lists.turns.len(), lists.answers.len(), word),
        left,
        "{}",
        text
    );
    Ok(())
}

// The commit has no place for its answer: it is not played, so that its word stays with the task. The turns before it are.
#[test]
fn a_turn_without_a_place_is_not_played(rt: HostRuntime) -> Result<(), Fail> {
    let text = "start 0\nstore 0 5 7\ncommit 0\n";
    leaves::<2>(&rt, &[0; 4], text, 16, 2, (3, 2, 0))?;
    leaves::<0>(&rt, &[0; 4], text, 16, 0, (3, 0, 0))?;
    let text = "start 0\nstore 0 5 7\ncommit 0\nstart 1\n";
    leaves::<3>(&rt, &[0; 4], text, 16, 3, (4, 3, 7))
}

// The image's word is there; the turns before the fault are read, and none is played.
#[test]
fn a_refused_text_leaves_the_words_of_the_image(rt: HostRuntime) -> Result<(), Fail> {
    let image = [1, 0, 0, 0, 5, 0, 0, 0, 1, 0, 0, 0, 8, 0, 0, 0];
    leaves::<8>(
        &rt,
        &image,
        "start 0\nstore 0 5 7\ncommit 0\nstop\n",
        13,
        29,
        (3, 0, 8),
    )
}

#[test]
fn a_refused_image_leaves_all(rt: HostRuntime) -> Result<(), Fail> {
    let image = [1, 0, 0, 0, 5, 0, 0, 0, 1, 0, 0, 0, 8, 0, 0];
    leaves::<8>(&rt, &image, "start 0\n", 9, 15, (0, 0, 0))
}

// Lists that are lent one by one, by who has no `Lists` of them: the word of the memory is read, and two tasks are active.
#[test]
fn a_text_is_played_with_lists_lent_one_by_one(rt: HostRuntime) -> Result<(), Fail> {
    let mut turn_row = [Turn::Start { p: 0 }; 8];
    let mut answer_row = [Ok(0); 8];
    let mut turns = RowList::new(&mut turn_row);
    let mut answers = RowList::new(&mut answer_row);
    let mut words = [8; 64];
    let mut store = SnoopingStore::open(WordMemory::open(&mut words));
    let text = "start 2\nload 2 5\nstart 0\n";
    let told = play_text(&mut store, text.as_bytes(), &mut turns, &mut answers);
    assert!(rt; told == Ok(2));
    assert_eq!(rt; turns.len(), 3);
    assert_eq!(rt; answers.items(), [Ok(0), Ok(8), Ok(1)].as_slice());
    let _ = store.close();
    Ok(())
}

#[test]
fn both_stores_play_with_lists_lent_one_by_one(rt: HostRuntime) -> Result<(), Fail> {
    let mut turn_row = [Turn::Start { p: 0 }; 8];
    let mut answer_row = [Ok(0); 8];
    let mut turn_row_again = [Turn::Start { p: 0 }; 8];
    let mut answer_row_again = [Ok(0); 8];
    let mut turns = RowList::new(&mut turn_row);
    let mut snooped = RowList::new(&mut answer_row);
    let mut again = RowList::new(&mut turn_row_again);
    let mut buffered = RowList::new(&mut answer_row_again);
    let image = [1, 0, 0, 0, 5, 0, 0, 0, 1, 0, 0, 0, 8, 0, 0, 0];
    let text = "start 2\nload 2 5\nstart 0\n";
    let mut words = [0; 64];
    let mut bytes = [0; 256];
    let ((_, snooping), (_, central)) = play_both(
        WordMemory::open(&mut words),
        ByteMemory::open(&mut bytes),
        &image,
        text.as_bytes(),
        &mut turns,
        &mut snooped,
        &mut again,
        &mut buffered,
    );
    assert!(rt; snooping == Ok(2));
    assert!(rt; central == Ok(2));
    assert_eq!(rt; (turns.len(), again.len()), (3, 3));
    assert_eq!(rt; snooped.items(), [Ok(0), Ok(8), Ok(1)].as_slice());
    assert_eq!(rt; buffered.items(), [Ok(0), Ok(8), Ok(1)].as_slice());
    Ok(())
}
