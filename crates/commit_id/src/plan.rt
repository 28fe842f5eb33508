//! The plan of a journal, by what the scan has counted.
ghost use Rattle.std.specs.Prelude.{◌≡◌, ◌<◌};
ghost use Rattle.image_model.specs.Scan.{blank_plan};
ghost use Rattle.image_model.specs.Walk.{plan_by, range, state_at};

use image_model::{Plan, State};

/// The plan of a blank journal, whose other sectors bear `number`.
pub(crate) fn blank_plan(number: u8) -> Plan
    ensures { result ≡ blank_plan number }
{
    Plan {
        state: State::Blank { number },
        walk: [(0, 0), (0, 0)],
    }
}

/// The plan of a journal whose newest number has this `reach` and so many sections that are
/// `whole`, and on which the number two laps on stands or not.
pub(crate) fn plan_by(sections: u64, has_two_on: bool, reach: u64, whole: u64, newest: u8) -> Plan
    requires newest { newest < 4 }

    ensures { result ≡ plan_by sections has_two_on reach whole newest }
{
    if has_two_on {
        return Plan {
            state: State::Erasing { newest },
            walk: [(0, 0), (0, 0)],
        };
    }
    Plan {
        state: state_at(sections, reach, whole, newest),
        walk: [range(reach, sections), range(0, whole)],
    }
}

/// The state of a journal where the newest number has this `reach` and so many `whole` sections.
fn state_at(sections: u64, reach: u64, whole: u64, newest: u8) -> State
    requires newest { newest < 4 }

    ensures { result ≡ state_at sections reach whole newest }
{
    if whole != reach {
        State::Mixed { newest }
    } else if reach == sections {
        State::Rest {
            next: 0,
            number: (newest + 1) % 4,
        }
    } else {
        State::Rest {
            next: reach,
            number: newest,
        }
    }
}

/// A range of sections.
fn range(from: u64, to: u64) -> (u64, u64)
    ensures { result ≡ range from to }
{
    if from < to { (from, to) } else { (0, 0) }
}
