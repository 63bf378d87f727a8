ghost use Rattle.std.specs.Prelude.{◌+◌, ◌<◌, ◌≤◌, IsTrue, length, sum_by, vec_len};
ghost use Rattle.std.specs.List.{list_all};
ghost use Rattle.flt_step.specs.Part.{parts_of};
ghost use Rattle.flt_step.specs.Step.{are_parts_in, steps_of_parts, lanes_of_parts, arms_of_parts, drains_of_parts};

use flt_config::ValidConfig;
use flt_step::Part;

/// What is configured, and what is done: a script that `parse` accepted, or that `load` made.
#[derive(Drop)]
pub struct Script {
    /// The configuration that the lines write, with the defaults for what they leave out.
    pub config: ValidConfig,
    /// The lives in their order, each as its parts in their order. There are 1 to 256 of them.
    pub lives: Vec<Vec<Part>>,
    /// Each step is in the ranges of the configuration: each event is configured, each cycle and each tester is below 4,
    /// each tick count is at least 1, each signal is below 8, each request has a byte, each application block is below `blocks`,
    /// each job has a byte, and each arm can be made. A block of lanes has 1 to 8 of them, none of which has a `cut`, `fault` or
    /// `mute`, and at most one of which has a `save`, `drain` or `get`.
    pub ghost in_range: { IsTrue (list_all (λ life. are_parts_in config (parts_of life.items)) lives.items) },
    /// There are at most 65,536 steps, those in lanes among them.
    pub ghost few: { sum_by (λ life. steps_of_parts (parts_of life.items)) lives.items ≤ 65536 },
    /// At most 64 of them are `cut`, `fault` or `mute`.
    pub ghost few_arms: { sum_by (λ life. arms_of_parts (parts_of life.items)) lives.items ≤ 64 },
    /// At most 1024 of them are `drain`, those in lanes among them.
    pub ghost few_drains: { sum_by (λ life. drains_of_parts (parts_of life.items)) lives.items ≤ 1024 },
    /// The parts and the lanes of the blocks are at most as many as a script has lines.
    pub ghost few_parts: { sum_by (λ life. length life.items + lanes_of_parts (parts_of life.items)) lives.items ≤ 1048577 },
    pub ghost some_life: { 0 < vec_len lives },
    pub ghost few_lives: { vec_len lives ≤ 256 },
}

impl Script {
    ghost use Rattle.std.specs.Prelude.{◌≡◌, map};
    ghost use Rattle.flt_script.specs.Script.{content};
    ghost use Rattle.flt_script.specs.Within.{IsWithinLimits};

    /// The script of these lives, which keep to the limits of scripts.
    pub(crate) fn new(config: ValidConfig, lives: Vec<Vec<Part>>) -> Script
        requires within { IsWithinLimits config (map (λ life. parts_of life.items) lives.items) }
        requires some { 0 < vec_len lives }
        ensures { content result ≡ record { config = config; lives = map (λ life. parts_of life.items) lives.items } }
    {
        Script { config, lives }
    }
}
