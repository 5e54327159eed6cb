//! Laws on runs, stated over the definitions alone.

ghost use Rattle.std.specs.Prelude.{◌≡◌, ◌≤◌, ◌↔◌, ℕ, List, [], ◌∷◌, ◌++◌, Err, Some, Result, length, slice_get};
ghost use Rattle.pon_admit.specs.declared.step.Step.{Step};
ghost use Rattle.pon_state.specs.declared.reply.Reply.{Reply};
ghost use Rattle.pon_history.specs.Chapters.{Chapter, IsLawfulChapter};
ghost use Rattle.pon_plant.specs.declared.fault.StepFault.{StepFault};
ghost use Rattle.pon_plant.specs.Projections.{answers_at, events_at, steps_alone};
ghost use Rattle.pon_plant.specs.Answers.{IsStepAnswer, after_step};
ghost use Rattle.pon_plant.specs.Runs.{Ran, RanFrom};

/// A run proceeds step by step: a run without steps leaves the plant unchanged, and an additional step is answered in
/// the plant that the earlier steps leave.
pub fn runs_go_step_by_step()
    ensures none { (old : List Chapter) → Ran old [] [] old }
    ensures one_more { (old mid : List Chapter) (steps : List Step)
        (answers : List (Result Reply StepFault)) (step : Step) (answer : Result Reply StepFault)
        → Ran old steps answers mid
        → IsStepAnswer (slice_get mid step.port) step.event answer →
        Ran old (steps ++ step ∷ []) (answers ++ answer ∷ []) (after_step mid step answer) }
{}

/// A port without a step in a run is unchanged by the run.
pub fn steps_at_one_port_change_no_other()
    ensures { (old new : List Chapter) (steps : List Step)
        (answers : List (Result Reply StepFault)) (port : ℕ) → Ran old steps answers new
        → events_at port steps ≡ [] → slice_get new port ≡ slice_get old port }
{}

/// A run answers `NoSuchPort` to exactly the steps whose port the plant does not have.
pub fn no_such_port_exactly_if_there_is_none()
    ensures { (old new : List Chapter) (steps : List Step)
        (answers : List (Result Reply StepFault)) (k : ℕ) (step : Step)
        (answer : Result Reply StepFault) → Ran old steps answers new
        → slice_get steps k ≡ Some step → slice_get answers k ≡ Some answer
        → answer ≡ Err StepFault.NoSuchPort ↔ length old ≤ step.port }
{}

/// A port runs as if it were alone: its steps with their answers are a run of a plant that has only this port, and that
/// run leaves the same chapter.
pub fn a_port_runs_as_if_alone()
    ensures { (old new : List Chapter) (steps : List Step)
        (answers : List (Result Reply StepFault)) (port : ℕ) (c : Chapter)
        → Ran old steps answers new → slice_get old port ≡ Some c
        → (d : Chapter) × (slice_get new port ≡ Some d) × Ran (c ∷ [])
        (steps_alone (events_at port steps)) (answers_at port steps answers) (d ∷ []) }
{}

/// The history of a port depends on its own steps alone. In any two runs, let a port begin with the same lawful chapter
/// and have the same steps in the same order, among any steps at other ports. If neither run answers a step at that
/// port as out of memory, both give the same answers to these steps and leave the same chapter at the port.
pub fn ports_depend_on_their_own_steps_alone()
    ensures answers { (port : ℕ) (c : Chapter) (steps other : List Step)
        (answers told : List (Result Reply StepFault)) (old new old2 new2 : List Chapter)
        → IsLawfulChapter c → events_at port steps ≡ events_at port other
        → RanFrom port c old steps answers new → RanFrom port c old2 other told new2
        → answers_at port steps answers ≡ answers_at port other told }
    ensures chapter { (port : ℕ) (c : Chapter) (steps other : List Step)
        (answers told : List (Result Reply StepFault)) (old new old2 new2 : List Chapter)
        → IsLawfulChapter c → events_at port steps ≡ events_at port other
        → RanFrom port c old steps answers new → RanFrom port c old2 other told new2
        → slice_get new port ≡ slice_get new2 port }
{}
