ghost use Rattle.std.specs.Prelude.{◌≡◌, ◌≤◌, IfOk, length};
ghost use Rattle.std.specs.String.{string_bytes};
ghost use Rattle.flt_config.specs.Validity.{needed_pages};
ghost use Rattle.flt_life_model.specs.Lives.{lists};
ghost use Rattle.flt_script.specs.Script.{content};
ghost use Rattle.flt_step.specs.Part.{part_of, parts_of};
ghost use Rattle.flt_step.specs.Step.{steps_of_parts, steps_of_part};
ghost use Rattle.flt_run.specs.Report.{accepted_text, step_count};

use flt_config::needed_pages;
use flt_script::Script;
use flt_step::Part;
use std::alloc::{AllocError, Global};
use std::fmt;

/// How much of a sector a script's records take, and how much is done.
#[derive(Clone, Copy)]
struct Extent {
    needed: u32,
    pages: u16,
    steps: usize,
    lives: usize,
}

impl fmt::Display for Extent {
    ghost use Rattle.std.specs.Prelude.{Some};
    ghost use Rattle.flt_run.specs.Report.{extent_text};

    ghost output = { λ e. Some (extent_text e.needed e.pages e.steps e.lives) };

    fn fmt<W: fmt::Write>(&self, f: &mut fmt::Formatter<W>) -> fmt::Result {
        let Extent {
            needed,
            pages,
            steps,
            lives,
        } = *self;
        write!(
            f,
            "needed {needed} pages {pages} steps {steps} lives {lives}"
        )
    }
}

/// The extent of a script.
fn extent_of(script: &Script) -> Extent
    ensures needed { result.needed ≡ needed_pages (content script.now).config }
    ensures pages { result.pages ≡ (content script.now).config.pages }
    ensures steps { result.steps ≡ step_count (content script.now).lives }
    ensures lives { result.lives ≡ length (content script.now).lives }
{
    let config = script.config.config();
    Extent {
        needed: needed_pages(config),
        pages: config.pages,
        steps: step_count(&script.lives),
        lives: script.lives.len(),
    }
}

/// The line that says what a script has.
pub(crate) fn accepted_line(alloc: Global, script: &Script) -> Result<String, AllocError>
    ensures { IfOk result (λ line. string_bytes line ≡ accepted_text (content script.now)) }
{
    let config = script.config.config();
    let events = config.events.len();
    let entries = config.memory;
    let extent = extent_of(script);
    format!(in alloc; "ok events {events} entries {entries} {extent}\n")
}

/// How many steps these lives have.
fn step_count(lives: &[Vec<Part>]) -> usize
    requires { step_count (lists lives.now) ≤ 65536 }
    ensures { result ≡ step_count (lists lives.now) }
{
    let mut count = 0;
    for life in lives {
        count += steps_of(life);
    }
    count
}

/// How many steps parts have.
fn steps_of(parts: &[Part]) -> usize
    requires { steps_of_parts (parts_of parts.now) ≤ 65536 }
    ensures { result ≡ steps_of_parts (parts_of parts.now) }
{
    let mut count = 0;
    for part in parts {
        count += steps_of_part(part);
    }
    count
}

/// How many steps a part has.
fn steps_of_part(part: &Part) -> usize
    requires { steps_of_part (part_of part.now) ≤ 65536 }
    ensures { result ≡ steps_of_part (part_of part.now) }
{
    match part {
        Part::One(_step) => 1,
        Part::Lanes(lanes) => lanes.iter().map(|lane| lane.len()).sum(),
    }
}
