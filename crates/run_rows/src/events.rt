//! The events of a run that has none yet: a Step of thread 0 is made, and no other event.

ghost use Rattle.c_places.specs.Limit.{KeepsLimit};

use c_places::places;
use c_source::{SourceRefused, accepted};
use c_tree::{EventKind, Lifted, Phase, Reason, Settings, State, Text};
use plain_run::{Now, make};
use row_calls::{RowsDiffer, compare, judged};
use std::alloc::{AllocError, Global};

const SOURCE: &str = "int main(void) { return 7; }";

/// Which events are made, and how many Steps there are then.
const WANTED: &str = r"
step 0 is made: 1
step 1 isn't made: 0
request isn't made: 0
park isn't made: 0
update isn't made: 0
refusal isn't made: 0
resume isn't made: 0
";

/// A line that says whether the event is made as the first one of the program's run.
fn put_first(
    text: &mut String,
    alloc: Global,
    program: Lifted,
    name: &str,
    kind: EventKind,
) -> Result<(), AllocError>
    requires { KeepsLimit program }
{
    let input = Text::from_vec(Vec::new(alloc));
    let mut places = places(alloc, &program)?;
    let mut now = Now {
        state: State::start(alloc, &program, &input)?,
        phase: Phase::Before,
        parked: Vec::new(alloc),
        steps: 0,
        ended: None,
    };
    let settings = Settings {
        program,
        armed: None,
        input,
        limit: 10,
    };
    let made = if make(alloc, &settings, &mut places, &mut now, kind)? {
        "is made"
    } else {
        "isn't made"
    };
    let steps = now.steps;
    write!(text, "{name} {made}: {steps}\n")
}

/// As `put_first`, for the program of the source.
fn put_event(
    text: &mut String,
    alloc: Global,
    name: &str,
    kind: EventKind,
) -> Result<(), AllocError> {
    match accepted(alloc, SOURCE.as_bytes()) {
        Ok(program) => put_first(text, alloc, program, name, kind),
        Err(SourceRefused::At(_, _)) => text.push_str("the source is refused\n"),
        Err(SourceRefused::Memory(e)) => Err(e),
    }
}

fn differing_events(alloc: Global) -> Result<String, AllocError> {
    let mut text = String::new(alloc);
    put_event(&mut text, alloc, "step 0", EventKind::Step(0))?;
    put_event(&mut text, alloc, "step 1", EventKind::Step(1))?;
    put_event(&mut text, alloc, "request", EventKind::Request)?;
    put_event(&mut text, alloc, "park", EventKind::Park(0))?;
    put_event(&mut text, alloc, "update", EventKind::Update)?;
    put_event(
        &mut text,
        alloc,
        "refusal",
        EventKind::Refuse(Reason::Memory),
    )?;
    put_event(&mut text, alloc, "resume", EventKind::Resume(0))?;
    let mut differing = String::new(alloc);
    compare(&mut differing, "first events", WANTED, &text)?;
    Ok(differing)
}

#[test]
fn only_a_step_may_come_first(rt: HostRuntime) -> Result<(), RowsDiffer> {
    judged(differing_events(rt.alloc()))
}
