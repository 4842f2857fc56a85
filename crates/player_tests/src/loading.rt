// A store is loaded, opened, played on and closed.
use memory::WordMemory;
use player::{ImageFault, ImageWhy, Loading};
use std::test::*;
use stores::{CentralBuffer, SnoopingStore, VersionStore};

#[test]
fn images_come_one_after_another_and_then_the_turns(rt: HostRuntime) -> Result<(), Fail> {
    let mut row = [0u32; 4];
    assert!(rt; WordMemory::check(&row).is_ok());
    let mut loading = Loading::new(WordMemory::open(&mut row));
    let first = loading.load(&[1, 0, 0, 0, 1, 0, 0, 0, 1, 0, 0, 0, 70, 0, 0, 0]);
    let bad = loading.load(&[1, 0, 0]);
    let second = loading.load(&[1, 0, 0, 0, 2, 0, 0, 0, 1, 0, 0, 0, 71, 0, 0, 0]);
    let mut buffer = loading.open::<CentralBuffer<WordMemory>>();
    let started = buffer.start(2);
    let loaded = buffer.load(2, 1);
    let stored = buffer.store(2, 3, 72);
    let committed = buffer.commit(2);
    let _ = buffer.close();
    let fault = ImageFault {
        why: ImageWhy::Length,
        place: 3,
    };
    assert_eq!(rt; first, Ok(()));
    assert_eq!(rt; bad, Err(fault));
    assert_eq!(rt; second, Ok(()));
    assert_eq!(rt; started, Ok(0));
    assert_eq!(rt; loaded, Ok(70));
    assert_eq!(rt; stored, Ok(0));
    assert_eq!(rt; committed, Ok(1));
    assert_eq!(rt; row, [0, 70, 71, 72]);
    Ok(())
}

#[test]
fn a_snooping_store_opens_over_the_words_of_the_image(rt: HostRuntime) -> Result<(), Fail> {
    let mut row = [0u32; 4];
    assert!(rt; WordMemory::check(&row).is_ok());
    let mut loading = Loading::new(WordMemory::open(&mut row));
    let loaded = loading.load(&[1, 0, 0, 0, 3, 0, 0, 0, 1, 0, 0, 0, 70, 0, 0, 0]);
    let mut caches = loading.open::<SnoopingStore<WordMemory>>();
    let word = caches.word(3);
    let tasks = caches.tasks();
    let _ = caches.close();
    assert_eq!(rt; loaded, Ok(()));
    assert_eq!(rt; word, Ok(70));
    assert_eq!(rt; tasks, 0);
    assert_eq!(rt; row, [0, 0, 0, 70]);
    Ok(())
}
