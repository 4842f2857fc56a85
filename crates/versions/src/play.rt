// Playing turns on any version store over any memory, with sequential reading in the contract.
ghost use Rattle.std.specs.Prelude.{◌≡◌, ℕ, ◌≤◌, min, List, [], ◌∷◌, ◌++◌, length, take, drop};
ghost use Rattle.versions.specs.Plain.{Plain, conditions, Rising, answer_of, state_after, answers_of, state_after_all};
ghost use Rattle.versions.specs.Played.{play_answer, turns_played};
ghost use Rattle.versions.specs.Runs.{WorkedRuns};
ghost use Rattle.versions.specs.Sequential.{ReadsOn, event_of, paired};
ghost use Rattle.versions.specs.Taken.{ShowsAll};

use crate::refusal::Answer;
use crate::store::VersionStore;
use crate::turn::Turn;

// There was no place for the answer to the turn `at`, counted from 0, and it was not played. It is no fault of
// a list, which stands above: the player tells it as one, and nothing prints this.
#[derive(Clone, Copy, PartialEq, Debug)]
pub struct AnswersFull {
    pub at: usize,
}

// Plays one turn.
pub fn play_turn<S: VersionStore>(store: &mut S, turn: Turn) -> Answer
    requires { S.VersionStore.sound store.old }
    ensures answer { result ≡ answer_of (S.VersionStore.plain store.old) turn }
    ensures after { S.VersionStore.plain store.new ≡ state_after (S.VersionStore.plain store.old) turn }
    ensures sequential { ReadsOn (S.VersionStore.plain store.old) (event_of turn result ∷ []) (S.VersionStore.plain store.new) }
    ensures shows { S.VersionStore.shows store.old turn store.new }
    ensures beside { S.VersionStore.spare store.new ≡ S.VersionStore.spare store.old }
    ensures kept { S.VersionStore.sound store.new }
{
    store.take_turn(turn)
}

// Plays the turns in their order and writes each answer at its turn's place, until there is no turn or no place left.
pub fn play_turns<S: VersionStore>(
    store: &mut S,
    turns: &[Turn],
    answers: &mut [Answer],
) -> Result<(), AnswersFull>
    requires { S.VersionStore.sound store.old }
    ensures answer { result ≡ play_answer turns.now answers.old }
    ensures answers { answers.new ≡ answers_of (S.VersionStore.plain store.old) (take (turns_played turns.now answers.old) turns.now) ++ drop (turns_played turns.now answers.old) answers.old }
    ensures after { S.VersionStore.plain store.new ≡ state_after_all (S.VersionStore.plain store.old) (take (turns_played turns.now answers.old) turns.now) }
    ensures sequential { ReadsOn (S.VersionStore.plain store.old) (paired turns.now answers.new) (S.VersionStore.plain store.new) }
    ensures shows { ShowsAll S.VersionStore.plain S.VersionStore.shows store.old (take (turns_played turns.now answers.old) turns.now) store.new }
    ensures beside { S.VersionStore.spare store.new ≡ S.VersionStore.spare store.old }
    ensures kept { S.VersionStore.sound store.new }
{
    // By place: after a loop over `answers.iter_mut().zip(turns)` a proof would know nothing of what is written.
    for (i, turn) in turns.iter().enumerate() {
        if i >= answers.len() {
            return Err(AnswersFull { at: i });
        }
        answers[i] = store.take_turn(*turn);
    }
    Ok(())
}

// The worked runs hold of the plain store.
pub fn worked_runs_hold()
    ensures { WorkedRuns }
{}

// The conditions of every turn are checked in rising order of their numbers.
pub fn refusals_rise()
    ensures { (s : Plain) (t : Turn) → Rising 0 (conditions s t) }
{}
