// Every valid line of the snooping store and its bus report, after every turn, by hand. The central buffer is held to the
// same answers, and both stores to the same words of the memory. All runs begin with 64 zero words.
ghost use Rattle.std.specs.Prelude.{◌≡◌};
ghost use Rattle.snooping.specs.declared.report.BusReport.{BusReport};

use crate::turns::{commit, load, replace, squash, start, store};
use memory::{Memory, WordMemory};
use std::process::Abort;
use stores::{
    Answer, BusKind, BusReport, CentralBuffer, Line, LineState, Refusal, SnoopingStore, Supplier,
    Turn, VersionStore,
};

// The bus reports, made here by hand: those of the store come from its own crate alone.
const QUIET: BusReport = BusReport {
    kind: BusKind::Quiet,
    address: 0,
    supplier: Supplier::Nobody,
    invalidated: 0,
    written: 0,
};

fn bus_read(a: u32, supplier: Supplier) -> BusReport {
    BusReport {
        kind: BusKind::BusRead,
        address: a,
        supplier,
        ..QUIET
    }
}

fn bus_write(a: u32, invalidated: u32) -> BusReport {
    BusReport {
        kind: BusKind::BusWrite,
        address: a,
        invalidated,
        ..QUIET
    }
}

fn bus_wback(a: u32, written: u32) -> BusReport {
    BusReport {
        kind: BusKind::BusWback,
        address: a,
        written,
        ..QUIET
    }
}

// The cache of processor p as a supplier.
fn cache(p: u32) -> Supplier {
    Supplier::Processor { p }
}

// A line of processor p.
#[derive(Clone, Copy)]
struct Row {
    p: u32,
    line: Line,
}

// The line with L alone, with S alone, and with both.
fn loaded(p: u32, tag: u32, word: u32, next: Option<u32>) -> Row {
    in_state(p, LineState::Loaded, tag, word, next)
}

fn stored(p: u32, tag: u32, word: u32, next: Option<u32>) -> Row {
    in_state(p, LineState::Stored, tag, word, next)
}

fn both(p: u32, tag: u32, word: u32, next: Option<u32>) -> Row {
    in_state(p, LineState::Both, tag, word, next)
}

fn in_state(p: u32, state: LineState, tag: u32, word: u32, next: Option<u32>) -> Row {
    Row {
        p,
        line: Line {
            state,
            tag,
            word,
            next,
        },
    }
}

// A turn, its answer, and the report and all valid lines after it.
#[derive(Clone, Copy)]
struct Played<'a> {
    turn: Turn,
    answer: Answer,
    report: BusReport,
    lines: &'a [Row],
}

fn step<'a>(turn: Turn, answer: Answer, report: BusReport, lines: &'a [Row]) -> Played<'a> {
    Played {
        turn,
        answer,
        report,
        lines,
    }
}

// Line c of p as the rows have it: invalid, if they have none.
fn line_of(lines: &[Row], p: u32, c: u32) -> Line {
    let invalid = Line {
        state: LineState::Invalid,
        tag: 0,
        word: 0,
        next: None,
    };
    lines
        .iter()
        .find(|row| row.p == p && row.line.tag % 16 == c)
        .map_or(invalid, |row| row.line)
}

// A store that is looked at while turns are played on it.
trait Watched: VersionStore {
    // What the message of a failure calls it.
    const NAME: &'static str;

    // Whether this is what its bus reports, if it has a bus.
    ghost reports: { Self → BusReport → Type 0 };

    // Holds what the store shows of its lines and its bus to what is expected.
    fn compare(&self, rt: &impl Abort, report: BusReport, lines: &[Row])
        requires { Self.sound self.now }
        ensures { reports self.now report };
}

// All 64 lines are held to the rows, and every row to its line.
impl<M: Memory> Watched for SnoopingStore<M> {
    const NAME: &'static str = "snooping store";

    ghost reports = { λ s r. s.report ≡ r };

    fn compare(&self, rt: &impl Abort, report: BusReport, lines: &[Row]) {
        assert_eq!(rt; self.report(), report);
        // By numbers, as a user asks for a line: nothing is indexed.
        for p in 0..4 {
            for c in 0..16 {
                assert_eq!(rt; self.line(p, c), Some(line_of(lines, p, c)));
            }
        }
        for row in lines {
            assert_eq!(rt; self.line(row.p, row.line.tag % 16), Some(row.line));
        }
    }
}

// It shows neither lines nor a bus.
impl<M: Memory> Watched for CentralBuffer<M> {
    const NAME: &'static str = "central buffer";

    ghost reports = { λ _ _. Unit {0} };

    fn compare(&self, _rt: &impl Abort, _report: BusReport, _lines: &[Row]) {}
}

// Starts the tasks in their order on a store over a memory, plays the turns, and looks at the store after each.
fn watch<S: Watched>(rt: &impl Abort, memory: S::Below, order: &[u32], played: &[Played])
where
    S::Below: Drop,
    requires { S.Below.Memory.sound memory }
{
    let mut store = S::open(memory);
    store.compare(rt, QUIET, &[]);
    let name = S::NAME;
    for p in order {
        let active = store.tasks();
        assert_eq!(rt; store.start(*p), Ok(active), "a start on the {name}");
        store.compare(rt, QUIET, &[]);
    }
    for step in played {
        assert_eq!(rt;
            store.take_turn(step.turn),
            step.answer,
            "an answer of the {name} differs"
        );
        store.compare(rt, step.report, step.lines);
    }
    let _ = store.close();
}

// Puts the words at their addresses.
fn put_words(rt: &impl Abort, row: &mut [u32], words: &[(u32, u32)]) {
    for (a, w) in words {
        let a = *a as usize;
        assert!(rt; a < row.len());
        row[a] = *w;
    }
}

// Tasks in this order, then these turns, on both stores. At the end the memory has the given words at their addresses, and else 0.
fn expect(rt: &impl Abort, order: &[u32], played: &[Played], left: &[(u32, u32)]) {
    let mut words = [0; 64];
    put_words(rt, &mut words, left);
    let mut below_caches = [0; 64];
    watch::<SnoopingStore<WordMemory>>(rt, WordMemory::open(&mut below_caches), order, played);
    assert_eq!(rt; below_caches, words, "a word below the caches differs");
    let mut below_buffer = [0; 64];
    watch::<CentralBuffer<WordMemory>>(rt, WordMemory::open(&mut below_buffer), order, played);
    assert_eq!(rt; below_buffer, words, "a word below the buffer differs");
}

#[test]
fn kinds_and_suppliers_have_their_numbers(rt: HostRuntime) {
    for (kind, number) in [
        (BusKind::Quiet, 0),
        (BusKind::BusRead, 1),
        (BusKind::BusWrite, 2),
        (BusKind::BusWback, 3),
    ] {
        assert_eq!(rt; kind.number(), number);
    }
    for (supplier, number) in [
        (cache(0), 0),
        (cache(1), 1),
        (cache(2), 2),
        (cache(3), 3),
        (Supplier::Memory, 4),
        (Supplier::Nobody, 5),
    ] {
        assert_eq!(rt; supplier.number(), number);
    }
}

#[test]
fn there_are_four_processors_and_sixteen_lines(rt: HostRuntime) {
    let mut row = [0; 64];
    let caches = SnoopingStore::open(WordMemory::open(&mut row));
    let found = [
        caches.line(3, 15).is_some(),
        caches.line(4, 0).is_some(),
        caches.line(0, 16).is_some(),
    ];
    let _ = caches.close();
    assert_eq!(rt; found, [true, false, false]);
}

#[test]
fn a_load_sees_the_nearest_earlier_version(rt: HostRuntime) {
    expect(
        &rt,
        &[0, 1, 2, 3],
        &[
            step(
                store(0, 5, 7),
                Ok(0),
                bus_write(5, 14),
                &[stored(0, 5, 7, None)],
            ),
            step(
                store(2, 5, 9),
                Ok(0),
                bus_write(5, 8),
                &[stored(0, 5, 7, Some(2)), stored(2, 5, 9, None)],
            ),
            step(
                load(1, 5),
                Ok(7),
                bus_read(5, cache(0)),
                &[
                    stored(0, 5, 7, Some(1)),
                    loaded(1, 5, 7, Some(2)),
                    stored(2, 5, 9, None),
                ],
            ),
        ],
        &[],
    );
}

// The list of address 5 goes 2, 0, 3, 1. Squashing 3 cuts it after 0; storing at 2 then squashes the rest.
#[test]
fn a_squash_cuts_a_list_in_its_middle(rt: HostRuntime) {
    expect(
        &rt,
        &[2, 0, 3, 1],
        &[
            step(
                store(2, 5, 70),
                Ok(0),
                bus_write(5, 11),
                &[stored(2, 5, 70, None)],
            ),
            step(
                load(0, 5),
                Ok(70),
                bus_read(5, cache(2)),
                &[stored(2, 5, 70, Some(0)), loaded(0, 5, 70, None)],
            ),
            step(
                store(3, 5, 73),
                Ok(0),
                bus_write(5, 2),
                &[
                    stored(2, 5, 70, Some(0)),
                    loaded(0, 5, 70, Some(3)),
                    stored(3, 5, 73, None),
                ],
            ),
            step(
                load(1, 5),
                Ok(73),
                bus_read(5, cache(3)),
                &[
                    stored(2, 5, 70, Some(0)),
                    loaded(0, 5, 70, Some(3)),
                    stored(3, 5, 73, Some(1)),
                    loaded(1, 5, 73, None),
                ],
            ),
            step(
                store(0, 22, 4),
                Ok(0),
                bus_write(22, 10),
                &[
                    stored(2, 5, 70, Some(0)),
                    loaded(0, 5, 70, Some(3)),
                    stored(3, 5, 73, Some(1)),
                    loaded(1, 5, 73, None),
                    stored(0, 22, 4, None),
                ],
            ),
            step(
                load(1, 22),
                Ok(4),
                bus_read(22, cache(0)),
                &[
                    stored(2, 5, 70, Some(0)),
                    loaded(0, 5, 70, Some(3)),
                    stored(3, 5, 73, Some(1)),
                    loaded(1, 5, 73, None),
                    stored(0, 22, 4, Some(1)),
                    loaded(1, 22, 4, None),
                ],
            ),
            step(
                squash(3),
                Ok(2),
                QUIET,
                &[
                    stored(2, 5, 70, Some(0)),
                    loaded(0, 5, 70, None),
                    stored(0, 22, 4, None),
                ],
            ),
            step(
                store(0, 22, 5),
                Ok(0),
                QUIET,
                &[
                    stored(2, 5, 70, Some(0)),
                    loaded(0, 5, 70, None),
                    stored(0, 22, 5, None),
                ],
            ),
            step(
                start(1),
                Ok(2),
                QUIET,
                &[
                    stored(2, 5, 70, Some(0)),
                    loaded(0, 5, 70, None),
                    stored(0, 22, 5, None),
                ],
            ),
            step(
                load(1, 5),
                Ok(70),
                bus_read(5, cache(2)),
                &[
                    stored(2, 5, 70, Some(0)),
                    loaded(0, 5, 70, Some(1)),
                    loaded(1, 5, 70, None),
                    stored(0, 22, 5, None),
                ],
            ),
            step(
                store(2, 5, 71),
                Ok(2),
                bus_write(5, 3),
                &[stored(2, 5, 71, None)],
            ),
            step(store(2, 5, 72), Ok(0), QUIET, &[stored(2, 5, 72, None)]),
        ],
        &[],
    );
}

// Processor 0 commits as the oldest and starts again as the youngest. Addresses 17 and 2 have lines 1 and 2.
#[test]
fn a_processor_commits_and_starts_again(rt: HostRuntime) {
    expect(
        &rt,
        &[0, 1, 2],
        &[
            step(
                store(0, 17, 3),
                Ok(0),
                bus_write(17, 6),
                &[stored(0, 17, 3, None)],
            ),
            step(
                store(0, 2, 4),
                Ok(0),
                bus_write(2, 6),
                &[stored(0, 17, 3, None), stored(0, 2, 4, None)],
            ),
            step(
                load(0, 9),
                Ok(0),
                bus_read(9, Supplier::Memory),
                &[
                    stored(0, 17, 3, None),
                    stored(0, 2, 4, None),
                    loaded(0, 9, 0, None),
                ],
            ),
            step(
                load(1, 2),
                Ok(4),
                bus_read(2, cache(0)),
                &[
                    stored(0, 17, 3, None),
                    stored(0, 2, 4, Some(1)),
                    loaded(1, 2, 4, None),
                    loaded(0, 9, 0, None),
                ],
            ),
            step(
                store(2, 17, 6),
                Ok(0),
                bus_write(17, 0),
                &[
                    stored(0, 17, 3, Some(2)),
                    stored(2, 17, 6, None),
                    stored(0, 2, 4, Some(1)),
                    loaded(1, 2, 4, None),
                    loaded(0, 9, 0, None),
                ],
            ),
            step(
                commit(0),
                Ok(2),
                bus_wback(2, 2),
                &[stored(2, 17, 6, None), loaded(1, 2, 4, None)],
            ),
            step(
                start(0),
                Ok(2),
                QUIET,
                &[stored(2, 17, 6, None), loaded(1, 2, 4, None)],
            ),
            step(
                load(0, 17),
                Ok(6),
                bus_read(17, cache(2)),
                &[
                    stored(2, 17, 6, Some(0)),
                    loaded(0, 17, 6, None),
                    loaded(1, 2, 4, None),
                ],
            ),
            step(
                store(1, 17, 8),
                Ok(0),
                bus_write(17, 0),
                &[
                    stored(1, 17, 8, Some(2)),
                    stored(2, 17, 6, Some(0)),
                    loaded(0, 17, 6, None),
                    loaded(1, 2, 4, None),
                ],
            ),
            step(
                load(0, 2),
                Ok(4),
                bus_read(2, Supplier::Memory),
                &[
                    stored(1, 17, 8, Some(2)),
                    stored(2, 17, 6, Some(0)),
                    loaded(0, 17, 6, None),
                    loaded(1, 2, 4, Some(0)),
                    loaded(0, 2, 4, None),
                ],
            ),
            step(
                commit(1),
                Ok(1),
                bus_wback(17, 1),
                &[
                    stored(2, 17, 6, Some(0)),
                    loaded(0, 17, 6, None),
                    loaded(0, 2, 4, None),
                ],
            ),
            step(
                commit(2),
                Ok(1),
                bus_wback(17, 1),
                &[loaded(0, 17, 6, None), loaded(0, 2, 4, None)],
            ),
            step(commit(0), Ok(0), QUIET, &[]),
        ],
        &[(17, 6), (2, 4)],
    );
}

// The head replaces a word that another task has loaded. That task stores there, and then the head stores there again.
#[test]
fn stores_follow_a_replacement_by_the_head(rt: HostRuntime) {
    expect(
        &rt,
        &[1, 3, 0],
        &[
            step(
                store(1, 5, 7),
                Ok(0),
                bus_write(5, 9),
                &[stored(1, 5, 7, None)],
            ),
            step(
                load(3, 5),
                Ok(7),
                bus_read(5, cache(1)),
                &[stored(1, 5, 7, Some(3)), loaded(3, 5, 7, None)],
            ),
            step(
                replace(1, 5),
                Ok(1),
                bus_wback(5, 1),
                &[loaded(3, 5, 7, None)],
            ),
            step(
                load(0, 5),
                Ok(7),
                bus_read(5, Supplier::Memory),
                &[loaded(3, 5, 7, Some(0)), loaded(0, 5, 7, None)],
            ),
            step(
                store(3, 5, 8),
                Ok(1),
                bus_write(5, 1),
                &[both(3, 5, 8, None)],
            ),
            step(start(0), Ok(2), QUIET, &[both(3, 5, 8, None)]),
            step(
                load(0, 5),
                Ok(8),
                bus_read(5, cache(3)),
                &[both(3, 5, 8, Some(0)), loaded(0, 5, 8, None)],
            ),
            step(
                store(1, 5, 9),
                Ok(2),
                bus_write(5, 8),
                &[stored(1, 5, 9, None)],
            ),
            step(replace(1, 5), Ok(1), bus_wback(5, 1), &[]),
            step(
                load(1, 21),
                Ok(0),
                bus_read(21, Supplier::Memory),
                &[loaded(1, 21, 0, None)],
            ),
            step(replace(1, 21), Ok(0), QUIET, &[]),
        ],
        &[(5, 9)],
    );
}

// The line of 3 keeps its copy and its L when the line that it was copied from is gone.
#[test]
fn a_store_after_a_replacement_squashes(rt: HostRuntime) {
    expect(
        &rt,
        &[1, 3, 0],
        &[
            step(
                store(1, 5, 7),
                Ok(0),
                bus_write(5, 9),
                &[stored(1, 5, 7, None)],
            ),
            step(
                load(3, 5),
                Ok(7),
                bus_read(5, cache(1)),
                &[stored(1, 5, 7, Some(3)), loaded(3, 5, 7, None)],
            ),
            step(
                replace(1, 5),
                Ok(1),
                bus_wback(5, 1),
                &[loaded(3, 5, 7, None)],
            ),
            step(
                store(1, 5, 9),
                Ok(2),
                bus_write(5, 9),
                &[stored(1, 5, 9, None)],
            ),
        ],
        &[(5, 7)],
    );
}

#[test]
fn a_store_needs_no_bus_with_an_own_word_and_no_pointer(rt: HostRuntime) {
    expect(
        &rt,
        &[0, 1, 2, 3],
        &[
            step(
                load(3, 5),
                Ok(0),
                bus_read(5, Supplier::Memory),
                &[loaded(3, 5, 0, None)],
            ),
            step(
                store(3, 5, 1),
                Ok(0),
                bus_write(5, 0),
                &[both(3, 5, 1, None)],
            ),
            step(store(3, 5, 2), Ok(0), QUIET, &[both(3, 5, 2, None)]),
            step(load(3, 5), Ok(2), QUIET, &[both(3, 5, 2, None)]),
            step(
                store(1, 6, 3),
                Ok(0),
                bus_write(6, 12),
                &[both(3, 5, 2, None), stored(1, 6, 3, None)],
            ),
            step(
                store(1, 6, 4),
                Ok(0),
                QUIET,
                &[both(3, 5, 2, None), stored(1, 6, 4, None)],
            ),
            step(
                store(2, 6, 5),
                Ok(0),
                bus_write(6, 8),
                &[
                    both(3, 5, 2, None),
                    stored(1, 6, 4, Some(2)),
                    stored(2, 6, 5, None),
                ],
            ),
            step(
                store(1, 6, 6),
                Ok(0),
                bus_write(6, 0),
                &[
                    both(3, 5, 2, None),
                    stored(1, 6, 6, Some(2)),
                    stored(2, 6, 5, None),
                ],
            ),
        ],
        &[],
    );
}

// Processor 2 has S at 5 alone, and is not reached; at 6 it has L too, and is.
#[test]
fn invalidations_end_at_the_next_own_word(rt: HostRuntime) {
    expect(
        &rt,
        &[0, 1, 2, 3],
        &[
            step(
                store(2, 5, 9),
                Ok(0),
                bus_write(5, 8),
                &[stored(2, 5, 9, None)],
            ),
            step(
                store(0, 5, 7),
                Ok(0),
                bus_write(5, 2),
                &[stored(0, 5, 7, Some(2)), stored(2, 5, 9, None)],
            ),
            step(
                load(2, 6),
                Ok(0),
                bus_read(6, Supplier::Memory),
                &[
                    stored(0, 5, 7, Some(2)),
                    stored(2, 5, 9, None),
                    loaded(2, 6, 0, None),
                ],
            ),
            step(
                store(2, 6, 9),
                Ok(0),
                bus_write(6, 8),
                &[
                    stored(0, 5, 7, Some(2)),
                    stored(2, 5, 9, None),
                    both(2, 6, 9, None),
                ],
            ),
            step(
                store(0, 6, 7),
                Ok(2),
                bus_write(6, 6),
                &[stored(0, 5, 7, None), stored(0, 6, 7, None)],
            ),
        ],
        &[],
    );
}

#[test]
fn a_refused_turn_leaves_lines_and_report(rt: HostRuntime) {
    let lines = [stored(0, 5, 7, None)];
    let report = bus_write(5, 6);
    expect(
        &rt,
        &[0, 1, 2],
        &[
            step(store(0, 5, 7), Ok(0), report, &lines),
            step(load(4, 5), Err(Refusal::NoProcessor), report, &lines),
            step(start(0), Err(Refusal::TaskActive), report, &lines),
            step(load(3, 5), Err(Refusal::NoTask), report, &lines),
            step(load(0, 64), Err(Refusal::NoAddress), report, &lines),
            step(load(0, 21), Err(Refusal::ClassTaken), report, &lines),
            step(store(0, 21, 1), Err(Refusal::ClassTaken), report, &lines),
            step(commit(1), Err(Refusal::NotHead), report, &lines),
            step(replace(1, 5), Err(Refusal::NotHead), report, &lines),
            step(squash(0), Err(Refusal::IsHead), report, &lines),
            step(replace(0, 6), Err(Refusal::NotHeld), report, &lines),
            step(commit(0), Ok(1), bus_wback(5, 1), &[]),
            step(squash(1), Err(Refusal::IsHead), bus_wback(5, 1), &[]),
        ],
        &[(5, 7)],
    );
}
