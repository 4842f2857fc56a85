// What a fault tells, and the line that tells it.
use player::{ImageFault, ImageWhy, Layer, ListFault, PlayerFault, TextFault, TextWhy};
use std::process::Abort;
use std::test::*;

fn expect(rt: &(impl Abort + AllocGlobal), fault: PlayerFault, line: &str) -> Result<(), Fail> {
    let told = format!(in rt.alloc(); "{fault}")?;
    assert_eq!(rt; told.as_str(), line);
    Ok(())
}

#[test]
fn every_fault_tells_layer_number_and_place(rt: HostRuntime) -> Result<(), Fail> {
    for (why, line) in [
        (ImageWhy::Length, "fault image 9 12"),
        (ImageWhy::PairCount, "fault image 10 12"),
        (ImageWhy::PairOrder, "fault image 11 12"),
        (ImageWhy::PairOutside, "fault image 12 12"),
    ] {
        expect(&rt, PlayerFault::from(ImageFault { why, place: 12 }), line)?;
    }
    for (why, line) in [
        (TextWhy::Verb, "fault text 13 34"),
        (TextWhy::Field, "fault text 14 34"),
        (TextWhy::TooLarge, "fault text 15 34"),
        (TextWhy::from(ListFault::Full), "fault list 16 34"),
    ] {
        expect(&rt, PlayerFault::from(TextFault { why, place: 34 }), line)?;
    }
    let full = PlayerFault::Results {
        fault: ListFault::Full,
        turn: 2048,
    };
    assert_eq!(rt; full.layer(), Layer::List);
    expect(&rt, full, "fault list 16 2048")
}

#[test]
fn a_fault_is_written_as_the_player_or_the_list_tells_it(rt: HostRuntime) -> Result<(), Fail> {
    let image = ImageFault {
        why: ImageWhy::Length,
        place: 0,
    };
    let text = TextFault {
        why: TextWhy::Verb,
        place: 8,
    };
    let full = ListFault::Full;
    let told = format!(in rt.alloc(); "{image}, {text}, {full}")?;
    assert_eq!(rt; told.as_str(), "fault image 9 0, fault text 13 8, no 16");
    Ok(())
}
