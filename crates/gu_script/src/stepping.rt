//! Steps of a script, and their texts.

ghost use Rattle.std.specs.Prelude.{◌≡◌, ◌++◌, None, OnOk};
ghost use Rattle.gu_world.specs.declared.outcome.Outcome.TheVariants.{NoGroup};
ghost use Rattle.gu_world.specs.declared.step.Step.TheVariants.{Commit, Enter, Propose, See};
ghost use Rattle.gu_text.specs.Outcomes.{outcome_text};
ghost use Rattle.gu_text.specs.declared.script_line.Line.TheVariants as line;
ghost use Rattle.gu_script.specs.Replaying.{looked, sweeper};
ghost use Rattle.gu_script.specs.ScriptSteps.{Proposes, ShowsFor, AnswersLine, AnswersStep};

use gu_terms::{Command, Group};
use gu_text::texts::{append_last_word, append_word};
use gu_text::{append_outcome, append_reply};
use gu_world::{Answered, Step, Worker, World};
use std::alloc::AllocError;

/// Returns the group that a step looks at.
fn looked(step: &Step) -> Option<Group>
    ensures { result ≡ looked step.now }
{
    match step {
        Step::See(_, group) => Some(*group),
        _ => None,
    }
}

/// Returns the worker that sweeps, which no line names.
fn sweeper() -> Worker
    ensures { result ≡ sweeper }
{
    Worker::known(63)
}

/// Takes a step that shows no view, and appends its outcome.
fn answer_step(world: &mut World, step: Step, output: &mut Vec<u8>) -> Result<(), AllocError>
    requires { ShowsFor world.old.state step None }
    ensures { OnOk result (AnswersStep world.old step output.old.items world.new output.new.items) }
{
    let looked = looked(&step);
    // Shows the prover: some steps led to this world.
    let _steps = world.outcomes().len();
    let outcome = world.take(step)?;
    let appended = append_outcome(output, None, looked, &outcome);
    drop(outcome);
    appended
}

/// Commits a worker's proposal, and appends the outcome. The sheet of a sweep shows the view for which it was proposed.
fn answer_commit(world: &mut World, worker: Worker, output: &mut Vec<u8>) -> Result<(), AllocError>
    ensures { OnOk result (AnswersStep world.old (Commit worker) output.old.items world.new output.new.items) }
{
    // Shows the prover: some steps led to this world.
    let _steps = world.outcomes().len();
    let (outcome, view) = world.commit(worker)?;
    let appended = append_outcome(output, view.as_ref(), None, &outcome);
    drop(outcome);
    drop(view);
    appended
}

/// Enters a command, and appends its reply.
fn answer_command(
    world: &mut World,
    command: &Command,
    output: &mut Vec<u8>,
) -> Result<(), AllocError>
    ensures { OnOk result (AnswersStep world.old (Enter command.now) output.old.items world.new output.new.items) }
{
    // Shows the prover: some steps led to this world.
    let _steps = world.outcomes().len();
    let answered = world.enter(command)?;
    match answered {
        Some(Answered { number, reply }) => append_reply(output, number, &reply),
        None => append_last_word(output, b"FULL"),
    }
}

/// Lets a worker look at a group, and appends what it saw. (This and `answer_proposal` are separate functions, so that no other line pays
/// for the room of their steps.)
#[inline(never)]
fn answer_look(
    world: &mut World,
    worker: Worker,
    group: Group,
    output: &mut Vec<u8>,
) -> Result<(), AllocError>
    ensures { OnOk result (AnswersStep world.old (See worker group) output.old.items world.new output.new.items) }
{
    answer_step(world, Step::See(worker, group), output)
}

/// Makes a worker's proposal, and appends the outcome.
#[inline(never)]
fn answer_proposal(
    world: &mut World,
    worker: Worker,
    output: &mut Vec<u8>,
) -> Result<(), AllocError>
    ensures { OnOk result (AnswersStep world.old (Propose worker) output.old.items world.new output.new.items) }
{
    answer_step(world, Step::Propose(worker), output)
}

/// Takes a borrowed step, and appends its outcome. A command isn't copied.
pub fn answer_borrowed(
    world: &mut World,
    step: &Step,
    output: &mut Vec<u8>,
) -> Result<(), AllocError>
    ensures { OnOk result (AnswersStep world.old step.now output.old.items world.new output.new.items) }
{
    match step {
        Step::Enter(command) => answer_command(world, command, output),
        Step::See(worker, group) => answer_look(world, *worker, *group, output),
        Step::Propose(worker) => answer_proposal(world, *worker, output),
        Step::Commit(worker) => answer_commit(world, *worker, output),
    }
}

/// Lets the sweeper look at a group and propose for what it saw.
fn propose(world: &mut World, group: &Group) -> Result<(), AllocError>
    ensures { OnOk result (Proposes world.old group.now world.new) }
{
    world.step(Step::See(sweeper(), *group))?;
    world.step(Step::Propose(sweeper()))
}

/// Appends that a group is unknown.
fn append_unknown_group(output: &mut Vec<u8>) -> Result<(), AllocError>
    ensures { OnOk result (output.new.items ≡ output.old.items ++ outcome_text None None NoGroup) }
{
    append_word(output, b"UNKNOWN")?;
    append_last_word(output, b"GROUP")
}

/// Sweeps a group, and appends the outcome.
pub fn answer_sweep(world: &mut World, group: Group, output: &mut Vec<u8>) -> Result<(), AllocError>
    ensures { OnOk result (AnswersLine world.old (line.Sweep group) output.old.items world.new output.new.items) }
{
    let is_known = world.book().reference().group(group);
    propose(world, &group)?;
    if is_known {
        return answer_commit(world, sweeper(), output);
    }
    world.step(Step::Commit(sweeper()))?;
    append_unknown_group(output)
}
